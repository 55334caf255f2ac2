// What a line asks for.
use crate::calls::Call;
use reference::{Change, EngineEntry};
use test_lines::numbers::{MOST_NUMBERS, setup_of};
use year::Pair;

// The most readings of an engine for each pollutant; a larger count is taken for this one.
const MOST_READINGS: usize = 8;

#[derive(Clone, Copy)]
pub enum Line<'a> {
    // the following calls are lent so many bytes of the array
    Lend(usize),
    // all bytes of the array become zero
    Clear,
    // the byte at this place becomes this one
    Write(usize, u8),
    // the strip, into so many bytes
    Strip(usize),
    // the wall page, into so many bytes
    Report(usize),
    Call(Call<'a>),
}

impl Line<'_> {
    // A line by its letter and its numbers. A letter that no other line has is that of a status.
    pub fn parse(letter: u8, numbers: &[u32; MOST_NUMBERS]) -> Line<'_> {
        match (letter, numbers) {
            (b'B', &[size, ..]) => Line::Lend(size as usize),
            (b'N', _) => Line::Clear,
            (b'W', &[place, byte, ..]) => Line::Write(place as usize, (byte % 256) as u8),
            (b'L', &[size, ..]) => Line::Strip(size as usize),
            (b'G', &[size, ..]) => Line::Report(size as usize),
            (b'S', _) => Line::Call(Call::SetUp(setup_of(numbers))),
            (b'E', _) => Line::Call(Call::Engine(engine(numbers))),
            (b'T', _) => Line::Call(Call::Preview(engine(numbers))),
            (b'A', &[hcnox, co, ..]) => Line::Call(Call::Change(Change::Amend(Pair { hcnox, co }))),
            (b'P', _) => Line::Call(Call::Change(Change::BeginPeriod)),
            (b'X', _) => Line::Call(Call::Change(Change::Declare)),
            (b'Z', _) => Line::Call(Call::Change(Change::Delete)),
            _ => Line::Call(Call::Status),
        }
    }
}

// An engine's number, how many readings it has for each pollutant, and the readings.
fn engine(numbers: &[u32; MOST_NUMBERS]) -> EngineEntry<'_> {
    let &[number, hcnox, co, ..] = numbers;
    let readings = &numbers[3..];
    let hcnox = (hcnox as usize).min(MOST_READINGS);
    let co = (co as usize).min(MOST_READINGS);
    EngineEntry {
        number,
        readings: Pair {
            hcnox: &readings[..hcnox],
            co: &readings[hcnox..hcnox + co],
        },
    }
}
