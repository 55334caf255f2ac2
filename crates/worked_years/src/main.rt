// A test program: small rules, and years from standard input, event by event, with their figures. Input and expected output are made by tools/worked_years.py,
// which works from documents 01 and 02 alone and describes the line format.
#![tactic(auto)]

use crate::work::{first_year, obey};
use test_lines::input::read_line;

mod line;
mod work;

// The most lines that are read. A proved loop must end, and nothing says that an input does.
const MOST_LINES: u32 = 2000;

fn main(rt: HostRuntime) {
    let mut input = rt.reader();
    let mut year = first_year();
    for _ in 0..MOST_LINES {
        // what nobody can read is not printed
        let _ = obey(&rt, &mut year, read_line(&mut input).as_slice());
    }
}
