// A test program: journals from standard input, each with every byte changed, at every other length up to 560, with slots exchanged and with other numbers of
// events. It prints how many of the damaged buffers are accepted, and a digest of which. Input and expected output are made by tools/damaged_journals.py, which
// works from documents 01 and 02 alone.
#![tactic(auto)]

use crate::damage::{Sample, accepts, filled};
use crate::rewriting::is_rewritten;
use crate::tally::Tally;
use journal::JOURNAL_SIZE;
use std::io::{self, Read};

mod damage;
mod rewriting;
mod tally;

// The bytes of a journal's name, which stands before it in the input.
const NAME_SIZE: usize = 16;

// The most journals that are tried. A proved loop must end, and nothing says that an input does.
const MOST_JOURNALS: u32 = 100;

fn say<P: Print>(rt: &P, name: &[u8], test: &str, holds: bool) -> io::Result<()> {
    rt.write_all(name)?;
    println!(rt; "{test} {}", u8::from(holds))
}

fn report<P: Print>(rt: &P, name: &[u8], test: &str, tally: Tally) -> io::Result<()> {
    rt.write_all(name)?;
    println!(rt; "{test}{tally}")
}

// Tries a journal as it was read, and damaged.
fn try_journal<P: Print>(rt: &P, name: &[u8], journal: &[u8; JOURNAL_SIZE]) -> io::Result<()> {
    say(rt, name, "accepted", accepts(journal))?;
    say(rt, name, "rewritten", is_rewritten(journal))?;
    let mut sample = Sample::new(journal);
    report(rt, name, "bytes", sample.bytes())?;
    report(rt, name, "lengths", sample.lengths())?;
    report(rt, name, "slots", sample.slots())
}

// Tries the next name and journal of the input, if there is one.
fn try_next<P: Print, I: Read>(rt: &P, input: &mut I) -> io::Result<()> {
    let mut name = [0; NAME_SIZE];
    input.read_exact(&mut name)?;
    let mut journal = [0; JOURNAL_SIZE];
    input.read_exact(&mut journal)?;
    try_journal(rt, &name, &journal)
}

fn main(rt: HostRuntime) {
    let mut input = rt.reader();
    for _ in 0..MOST_JOURNALS {
        // what nobody can read is not printed
        let _ = try_next(&rt, &mut input);
    }
    let _ = report(&rt, b"every value     ", "filled", filled());
}
