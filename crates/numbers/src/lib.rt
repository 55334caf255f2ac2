// The numbers of a line, each after one space.
#![tactic(auto)]

ghost use Rattle.std.specs.Prelude.{◌≡◌, ◌≤◌, length};
ghost use Rattle.reference.specs.Refused.{left_in};
ghost use Rattle.protocol.specs.Number.{number_outcome_of};
ghost use Rattle.protocol.specs.KeyLine.{spaced_number, spaced_outcome, numbers_from};
ghost use Rattle.numbers.specs.Numbers.{numbers_of, numbers_outcome_of, numbers_outcome, numbers_read};

use arrayvec::ArrayVec;
use protocol::Number;
use reader::Reader;
use reference::Refusal;

// The most numbers of a line: each takes two bytes or more, after the letter, and there are at most 64.
pub const MOST_NUMBERS: usize = 31;

// A space at a position, and the number after it.
#[tactic(auto, unfolding(protocol::specs::KeyLine::spaced_number, protocol::specs::KeyLine::spaced_outcome))]
pub fn spaced_number(line: &[u8], at: usize) -> Option<Number>
    ensures number { result ≡ spaced_number line.now at }
    ensures outcome { number_outcome_of result ≡ spaced_outcome line.now at }
{
    if line.get(at) != Some(&b' ') {
        return None;
    }
    Reader::new(line, at + 1).next_number()
}

// Reads the numbers after a line's letter, to the line's end, into a lent vector, so that they are not copied.
#[tactic(auto, using(crate::proofs::Sequence::read_none, crate::proofs::Sequence::read_all, crate::proofs::Sequence::left_at_end, crate::proofs::Sequence::outcome_of_line))]
pub fn read_numbers(line: &[u8], numbers: &mut ArrayVec<u32, MOST_NUMBERS>) -> Result<(), Refusal>
    requires some_line { 1 ≤ length line.now }
    requires line_size { length line.now ≤ 64 }
    ensures numbers { left_in result numbers.new ≡ numbers_of line.now }
    ensures outcome { numbers_outcome_of (left_in result numbers.new) ≡ numbers_outcome line.now }
    ensures at_most_31 { (numbers_outcome_of (left_in result numbers.new)).count ≤ 31 }
    ensures values_after { numbers.new.items ≡ numbers_read (length line.now) line.now 1 }
{
    numbers.clear();
    let mut at = 1;
    while at < line.len() {
        let number = spaced_number(line, at).ok_or(Refusal::LineForm)?;
        numbers.push(number.value);
        at = number.next;
    }
    Ok(())
}
