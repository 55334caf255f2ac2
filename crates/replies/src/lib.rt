// The replies: "NO" and a refusal's number, "OK" and what a technician needs of a status, "OK" and the marks. Each is written into a lent text, in place of what that
// held, so that no reply is copied from call to call; each is shorter than the text's 96 bytes, so that its newline fits too.
#![tactic(auto)]

ghost use Rattle.std.specs.Prelude.{◌≡◌, ◌≤◌, ◌<◌, length};
ghost use Rattle.protocol.specs.Reply.{refusal_reply, status_reply, marks_reply, answer_reply};

use reference::Answer;
use text::Text;
use year::Status;

// "NO" and the number of a refusal.
pub fn write_refusal(text: &mut Text, number: u8)
    ensures written { text.new ≡ refusal_reply number }
    ensures short { length text.new < 96 }
{
    text.set(b"NO");
    text.number(u64::from(number));
}

// "OK", n, verdict, the two newest marks joined, N in tenths for each pollutant.
pub fn write_status(text: &mut Text, s: &Status)
    ensures written { text.new ≡ status_reply s.now }
    ensures short { length text.new < 96 }
{
    text.set(b"OK");
    text.number(u64::from(s.n));
    text.number(u64::from(s.verdict));
    text.marks(s.figures.hcnox.mark, s.figures.co.mark);
    text.size(s.figures.hcnox.size);
    text.size(s.figures.co.size);
}

// "OK" and the marks, or "OK" alone with no engine.
pub fn write_marks_reply(text: &mut Text, marks: &[u8])
    requires { length marks.now ≤ 80 }
    ensures written { text.new ≡ marks_reply marks.now }
    ensures short { length text.new < 96 }
{
    text.set(b"OK");
    if !marks.is_empty() {
        text.put(b" ");
        text.put(marks);
    }
}

// The reply to every call except the marks call.
pub fn write_answer(text: &mut Text, answer: &Answer)
    ensures written { text.new ≡ answer_reply answer.now }
    ensures short { length text.new < 96 }
{
    match answer {
        Ok(s) => write_status(text, s),
        Err(refusal) => write_refusal(text, u8::from(*refusal)),
    }
}
