// The calculator: key lines from standard input, replies to standard output.
#![tactic(auto)]

use terminal::serve;

fn main(rt: HostRuntime) {
    serve(&rt);
}
