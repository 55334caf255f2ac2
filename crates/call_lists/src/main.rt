// A test program: lists of public calls from standard input, one per line, and what each call answers, with a digest of the journal after it. Input and
// expected output are made by tools/call_lists.py, which works from documents 01 and 02 alone and describes the line format.
#![tactic(auto)]

use crate::session::Session;
use test_lines::input::read_line;

mod calls;
mod line;
mod session;

// The most lines that are read. A proved loop must end, and nothing says that an input does.
const MOST_LINES: u32 = 40000;

fn main(rt: HostRuntime) {
    let mut input = rt.reader();
    let mut session = Session::new();
    for _ in 0..MOST_LINES {
        // what nobody can read is not printed
        let _ = session.obey(&rt, read_line(&mut input).as_slice());
    }
}
