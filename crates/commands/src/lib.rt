// The key line on a lent journal: the call that a line asks for is made, and its reply is written. There is no precondition on what is lent, and the contract gives
// every byte of it.
#![tactic(auto)]

ghost use Rattle.std.specs.Prelude.{◌≡◌, ◌<◌, length, OnOk};
ghost use Rattle.reference.specs.Refused.{left_in};
ghost use Rattle.protocol.specs.Reply.{reply_to, journal_after_line, replied};

use arrayvec::ArrayVec;
use dispatch::carry_out;
use numbers::read_numbers;
use parser::requested;
use protocol::LINE_SIZE;
use reference::Refusal;
use replies::write_refusal;
use text::Text;

// Makes the call that a line asks for, and writes its reply. A line of more than 64 bytes is refused by 1, and an empty one, which has no letter, by 2.
#[tactic(auto, using(crate::proofs::Lines::long_line, crate::proofs::Lines::empty_line, crate::proofs::Lines::letter_and_numbers, crate::proofs::Lines::refused_line), unfolding(protocol::specs::Reply::reply_to, protocol::specs::Reply::journal_after_line))]
fn carry_out_line(journal: &mut [u8], line: &[u8], text: &mut Text) -> Result<(), Refusal>
    ensures reply { replied (left_in result text.new) ≡ reply_to line.now journal.old }
    ensures short { OnOk result (length text.new < 96) }
    ensures journal_after { journal.new ≡ journal_after_line line.now journal.old }
{
    if line.len() > LINE_SIZE {
        return Err(Refusal::LineTooLong);
    }
    let letter = line.first().ok_or(Refusal::LineForm)?;
    let mut numbers = ArrayVec::new();
    read_numbers(line, &mut numbers)?;
    let call = requested(*letter, numbers.as_slice())?;
    carry_out(journal, call, text);
    Ok(())
}

// Writes the reply to a line, in place of what the text held.
pub fn reply(journal: &mut [u8], line: &[u8], text: &mut Text)
    ensures reply { text.new ≡ reply_to line.now journal.old }
    ensures short { length text.new < 96 }
    ensures journal_after { journal.new ≡ journal_after_line line.now journal.old }
{
    if let Err(refusal) = carry_out_line(journal, line, text) {
        write_refusal(text, u8::from(refusal));
    }
}
