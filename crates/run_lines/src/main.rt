// A tested run of the calculator: lines that are not of the form, too long or of arbitrary bytes, second setups, and many years keyed one after the other; no
// newline at the end.
#![tactic(auto)]

use terminal::serve;

fn main(rt: HostRuntime) {
    serve(&rt);
}
