// Making the call of a request, and writing the reply to it.
#![tactic(auto)]

ghost use Rattle.std.specs.Prelude.{◌≡◌, ◌<◌, length};
ghost use Rattle.reference.specs.Call.{Marks, Write};
ghost use Rattle.protocol.specs.Reply.{query_reply, call_reply};
ghost use Rattle.reference.specs.Answers.{journal_after};
ghost use Rattle.parser.specs.Request.{call_for};

use entries::{enter_change, enter_engine, preview_engine, set_up};
use parser::CallRequest;
use queries::write_marks;
use replies::{write_answer, write_marks_reply, write_refusal};
use text::Text;
use year::MOST_MARKS;

// "OK" and the marks, or the call's refusal.
#[tactic(auto, using(crate::proofs::Listing::few_marks, crate::proofs::Listing::front_size, crate::proofs::Listing::marks_replied, crate::proofs::Listing::refusal_replied))]
fn list_marks(journal: &[u8], text: &mut Text)
    ensures reply { text.new ≡ query_reply (Write Marks 80) journal.now }
    ensures short { length text.new < 96 }
{
    let mut marks = [0u8; MOST_MARKS];
    match write_marks(journal, &mut marks) {
        Ok(count) => write_marks_reply(text, &marks[..count]),
        Err(refusal) => write_refusal(text, u8::from(refusal)),
    }
}

// Makes a call, and writes the reply to it. It is not inlined, so that a refused line does not pay for its locals, which are zeroed at entry.
#[tactic(auto, using(crate::proofs::Listing::query_keeps))]
#[inline(never)]
pub fn carry_out(journal: &mut [u8], call: CallRequest<'_>, text: &mut Text)
    ensures reply { text.new ≡ call_reply (call_for call.entry) journal.old }
    ensures short { length text.new < 96 }
    ensures journal_after { journal.new ≡ journal_after (call_for call.entry) journal.old }
{
    let answer = match call {
        CallRequest::SetUp(setup) => set_up(journal, setup),
        CallRequest::Engine(engine) => enter_engine(journal, &engine),
        CallRequest::Preview(engine) => preview_engine(journal, &engine),
        CallRequest::Change(change) => enter_change(journal, change),
        CallRequest::WriteMarks => return list_marks(journal, text),
    };
    write_answer(text, &answer);
}
