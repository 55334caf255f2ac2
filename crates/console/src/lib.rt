// The input as it arrives, byte by byte: a line is held until its newline, and then answered.
#![tactic(auto)]

ghost use Rattle.std.specs.Prelude.{◌≡◌, [], ◌∷◌, ◌++◌, ◌≤◌, length};
ghost use Rattle.ascii.specs.Text.{byte};
ghost use Rattle.protocol.specs.Console.{held, shown_at, held_at, journal_at, shown_at_end, journal_at_end};
ghost use Rattle.protocol.specs.Reply.{reply_to, journal_after_line};
ghost use Rattle.console.specs.Keys.{shown};

use arrayvec::ArrayVec;
use commands::reply;
use protocol::HELD_SIZE;
use std::marker::Model;
use text::Text;

// A line as it is keyed: its bytes so far. A line over 64 bytes is refused, whatever its other bytes are, so none is held after the 65th.
#[derive(Drop)]
pub struct Line {
    bytes: ArrayVec<u8, HELD_SIZE>,
}

impl Model for Line {
    ghost use Rattle.std.specs.Prelude.{List, ℕ};

    ghost Value = { List ℕ };

    ghost view = { λ l. l.bytes.items };
}

impl Line {
    pub fn new() -> Line
        ensures { result ≡ [] }
    {
        Line {
            bytes: ArrayVec::new(),
        }
    }

    pub fn as_bytes(&self) -> &[u8]
        ensures value { result.now ≡ self.now }
        ensures fits { length result.now ≤ 65 }
    {
        self.bytes.as_slice()
    }

    #[tactic(auto, using(crate::proofs::Holding::held_full, crate::proofs::Holding::held_room))]
    fn hold(&mut self, byte: u8)
        ensures { self.new ≡ held self.old byte }
    {
        if !self.bytes.is_full() {
            self.bytes.push(byte);
        }
    }

    // Takes a byte of the input, after the bytes held of its line. A newline gives the reply to the line, with a newline.
    pub fn key(&mut self, journal: &mut [u8], byte: u8) -> Option<Text>
        ensures shown { shown result ≡ shown_at byte self.old journal.old }
        ensures line_held { self.new ≡ held_at byte self.old }
        ensures journal_after { journal.new ≡ journal_at byte self.old journal.old }
    {
        if byte != b'\n' {
            self.hold(byte);
            return None;
        }
        let answer = answer(journal, self.as_bytes());
        self.bytes.clear();
        Some(answer)
    }
}

// The reply to a line, and a newline.
fn answer(journal: &mut [u8], line: &[u8]) -> Text
    ensures shown { result ≡ reply_to line.now journal.old ++ (byte "\n" ∷ []) }
    ensures journal_after { journal.new ≡ journal_after_line line.now journal.old }
{
    let mut text = Text::new();
    reply(journal, line, &mut text);
    text.put(b"\n");
    text
}

// The end of the input: the bytes held, if any, are a last line without newline.
pub fn end_input(journal: &mut [u8], line: &[u8]) -> Option<Text>
    ensures shown { shown result ≡ shown_at_end line.now journal.old }
    ensures journal_after { journal.new ≡ journal_at_end line.now journal.old }
{
    if line.is_empty() {
        return None;
    }
    Some(answer(journal, line))
}
