// What a line asks for.
use results::result_of;
use rounding::Factor;
use schedule::{needs, one_percent, periods};
use test_lines::numbers::{MOST_NUMBERS, setup_of};
use year::{Event, Pair, Setup};

#[derive(Clone, Copy)]
pub enum Line {
    // the printed line ends
    End,
    // the number that a small rule gives
    Number(u64),
    // a year begins
    Begin(Setup),
    // an event, which is entered if it can be
    Enter(Event),
    // the figures, also computed anew at this resolution
    Figures(u32),
    // nothing
    Nothing,
}

impl Line {
    // A line by its letter and its numbers.
    pub fn parse(letter: u8, numbers: &[u32; MOST_NUMBERS]) -> Line {
        match (letter, numbers) {
            (b'.', _) => Line::End,
            (b'r', &[kind, value, count, first, second, third, ..]) => Line::Number(rounded(
                Factor { kind, value },
                count,
                &[first, second, third],
            )),
            (b'd', &[volume, days, ..]) => Line::Number(u64::from(periods(volume, days))),
            (b'n', &[period, ..]) => Line::Number(u64::from(needs(period))),
            (b'c', &[volume, ..]) => Line::Number(one_percent(volume)),
            (b'S', _) => Line::Begin(setup_of(numbers)),
            (b'E', &[number, readings, hcnox, co, ..]) => Line::Enter(Event::Engine {
                number,
                readings,
                results: Pair { hcnox, co },
            }),
            (b'A', &[hcnox, co, ..]) => Line::Enter(Event::Amendment(Pair { hcnox, co })),
            (b'P', _) => Line::Enter(Event::NextPeriod),
            (b'X', _) => Line::Enter(Event::Declaration),
            (b'Z', _) => Line::Enter(Event::Deletion),
            (b'F', &[resolution, ..]) => Line::Figures(resolution),
            _ => Line::Nothing,
        }
    }
}

// The result of one, two or, for any other count, three readings.
fn rounded(factor: Factor, count: u32, readings: &[u32; 3]) -> u64 {
    let count = match count {
        1 => 1,
        2 => 2,
        _ => 3,
    };
    result_of(factor, &readings[..count])
}
