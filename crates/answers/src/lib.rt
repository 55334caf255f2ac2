// An answer as numbers in a lent slice: its refusal, and the twenty figures of its status.
#![tactic(auto)]

ghost use Rattle.std.specs.Prelude.{◌≡◌, ◌≤◌, length};
ghost use Rattle.buffers.specs.Bytes.{put};
ghost use Rattle.reference.specs.Answers.{outcome_of, no_status};
ghost use Rattle.exports.specs.Numbers.{pollutant_numbers, status_numbers};

use exports::FIGURE_COUNT;
use reference::Answer;
use year::{Figures, Status};

// The nine numbers of one pollutant.
#[tactic(auto, unfolding(exports::specs::Numbers::pollutant_numbers))]
fn pollutant_numbers(f: Figures) -> [u64; 9]
    ensures { result ≡ pollutant_numbers f }
{
    [
        f.sum,
        f.deviation.floor,
        f.deviation.inexact,
        f.cumsum.low,
        f.cumsum.high,
        f.limit.low,
        f.limit.high,
        f.size.unwrap_or_default(),
        u64::from(u8::from(f.mark)),
    ]
}

// The twenty numbers of a status.
#[tactic(auto, unfolding(exports::specs::Numbers::pollutant_numbers, exports::specs::Numbers::status_numbers))]
fn status_numbers(s: Status) -> [u64; FIGURE_COUNT]
    ensures { result ≡ status_numbers s }
{
    let mut numbers = [0; FIGURE_COUNT];
    numbers[..2].copy_from_slice(&[u64::from(s.n), u64::from(s.verdict)]);
    numbers[2..11].copy_from_slice(&pollutant_numbers(s.figures.hcnox));
    numbers[11..].copy_from_slice(&pollutant_numbers(s.figures.co));
    numbers
}

// Puts the numbers of a status at the front of a lent slice. The rest of the slice is unchanged.
#[tactic(auto, unfolding(buffers::specs::Bytes::put))]
fn put_status(numbers: &mut [u64], s: Status)
    requires { 20 ≤ length numbers.old }
    ensures { numbers.new ≡ put numbers.old 0 (status_numbers s) }
{
    numbers[..FIGURE_COUNT].copy_from_slice(&status_numbers(s));
}

// Puts the figures of a call that is refused by this number, whatever it is, and returns it: they are all blank.
pub fn put_refused(numbers: &mut [u64], number: u8) -> u8
    requires { 20 ≤ length numbers.old }
    ensures refusal { result ≡ number }
    ensures numbers_after { numbers.new ≡ put numbers.old 0 (status_numbers no_status) }
{
    put_status(numbers, Status::default());
    number
}

// Puts the numbers of an answer at the front of a lent slice, and returns its refusal, 0 for none.
pub fn put_answer(numbers: &mut [u64], answer: Answer) -> u8
    requires { 20 ≤ length numbers.old }
    ensures refusal { result ≡ (outcome_of answer).refusal }
    ensures numbers_after { numbers.new ≡ put numbers.old 0 (status_numbers (outcome_of answer).status) }
{
    match answer {
        Ok(s) => {
            put_status(numbers, s);
            0
        }
        Err(refusal) => put_refused(numbers, u8::from(refusal)),
    }
}
