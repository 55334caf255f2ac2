// A journal, and the lines carried out on it.
use crate::calls::{Call, print_answer};
use crate::line::Line;
use journal::JOURNAL_SIZE;
use queries::{marks, report, write_marks, write_report};
use reference::OutputOutcome;
use std::io;
use std::marker::Model;
use test_lines::numbers::numbers;
use test_lines::{ROOM, digested};

// The most bytes that a strip is lent.
const STRIP_ROOM: usize = 100;

// The most bytes that a wall page is lent.
const REPORT_ROOM: usize = 2600;

// An array of 560 bytes, of which the calls are lent the first `lent`.
#[derive(Drop)]
pub struct Session {
    journal: [u8; ROOM],
    lent: usize,
}

// A contract sees the bytes that are lent.
impl Model for Session {
    ghost use Rattle.std.specs.Prelude.{List, ℕ, ◌≤◌, take};

    ghost Value = { List ℕ };

    ghost view = { λ s. take s.lent s.journal };

    ghost invariant = { λ s. s.lent ≤ 560 };
}

fn digest(bytes: &[u8]) -> u64 {
    bytes
        .iter()
        .fold(1, |digest, b| digested(digest, u64::from(*b)))
}

// The second form of the marks: the refusal, and the part handed back.
fn hand_back<P: Print>(rt: &P, journal: &[u8], strip: &mut [u8]) -> io::Result<()> {
    let mut refusal = 255;
    let part = marks(journal, strip, &mut refusal);
    print!(rt; " {refusal} |")?;
    rt.write_all(part)?;
    print!(rt; "|")
}

// The second form of the wall page: the refusal, and the length and a digest of the part handed back.
fn hand_back_report<P: Print>(rt: &P, journal: &[u8], page: &mut [u8]) -> io::Result<()> {
    let mut refusal = 255;
    let part = report(journal, page, &mut refusal);
    print!(rt; " {refusal} {} {}", part.len(), digest(part))
}

impl Session {
    pub fn new() -> Session {
        Session {
            journal: [0; ROOM],
            lent: JOURNAL_SIZE,
        }
    }

    // Carries out a line; an empty one asks for nothing. A title begins with #, and is printed.
    pub fn obey<P: Print>(&mut self, rt: &P, line: &[u8]) -> io::Result<()> {
        let Some(&letter) = line.first() else {
            return Ok(());
        };
        if letter == b'#' {
            rt.write_all(line)?;
            return println!(rt; "");
        }
        match Line::parse(letter, &numbers(line)) {
            Line::Lend(size) => self.lent = size.min(ROOM),
            Line::Clear => self.journal.fill(0),
            Line::Write(place, byte) => self.write(place, byte),
            Line::Strip(size) => self.strip(rt, size)?,
            Line::Report(size) => self.report(rt, size)?,
            Line::Call(call) => self.call(rt, call)?,
        }
        Ok(())
    }

    fn write(&mut self, place: usize, byte: u8) {
        if let Some(b) = self.journal.get_mut(place) {
            *b = byte;
        }
    }

    // The answer, and a digest of all 560 bytes.
    fn call<P: Print>(&mut self, rt: &P, call: Call<'_>) -> io::Result<()> {
        let lent = self.lent;
        let answer = call.make(&mut self.journal[..lent]);
        print_answer(rt, answer)?;
        println!(rt; " {}", digest(&self.journal))
    }

    // Both forms of the marks, each into an array of dots: the refusal, the length and the whole array; the refusal, the part handed back and a digest of the
    // array; and a digest of the journal.
    fn strip<P: Print>(&self, rt: &P, size: usize) -> io::Result<()> {
        let journal = &self.journal[..self.lent];
        let size = size.min(STRIP_ROOM);
        let mut strip = [b'.'; STRIP_ROOM];
        let OutputOutcome { refusal, length } = write_marks(journal, &mut strip[..size]).into();
        print!(rt; "{refusal} {length} |")?;
        rt.write_all(&strip)?;
        print!(rt; "|")?;
        strip.fill(b'.');
        hand_back(rt, journal, &mut strip[..size])?;
        println!(rt; " {} {}", digest(&strip), digest(&self.journal))
    }

    // Both forms of the wall page, each into an array of dots: the refusal, the length and a digest of the array; the refusal, length and digest of the part
    // handed back, and a digest of the array; and a digest of the journal.
    fn report<P: Print>(&self, rt: &P, size: usize) -> io::Result<()> {
        let journal = &self.journal[..self.lent];
        let size = size.min(REPORT_ROOM);
        let mut page = [b'.'; REPORT_ROOM];
        let OutputOutcome { refusal, length } = write_report(journal, &mut page[..size]).into();
        print!(rt; "{refusal} {length} {}", digest(&page))?;
        page.fill(b'.');
        hand_back_report(rt, journal, &mut page[..size])?;
        println!(rt; " {} {}", digest(&page), digest(&self.journal))
    }
}
