// A tested run of the calculator: the worked years of examples/ except document 01's, one after another.
#![tactic(auto)]

use terminal::serve;

fn main(rt: HostRuntime) {
    serve(&rt);
}
