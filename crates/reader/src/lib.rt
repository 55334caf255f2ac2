// The reader of the key line: the number at a position.
#![tactic(auto)]

mod digits;

ghost use Rattle.std.specs.Prelude.{◌≡◌};
ghost use Rattle.protocol.specs.Number.{number_at, number_outcome_of, number_outcome};

use crate::digits::number_at;
use protocol::Number;

// The line that it was given, and the position of the next byte.
#[derive(Clone, Copy)]
pub struct Reader<'a> {
    pub line: &'a [u8],
    pub at: usize,
}

impl<'a> Reader<'a> {
    pub fn new(line: &'a [u8], at: usize) -> Reader<'a>
        ensures line { result.line ≡ line.entry }
        ensures at { result.at ≡ at }
    {
        Reader { line, at }
    }

    // The number at the reader's position, if one can be read there.
    #[tactic(auto, unfolding(protocol::specs::Number::number_at, protocol::specs::Number::number_outcome))]
    pub fn next_number(self) -> Option<Number>
        ensures number { result ≡ number_at self.entry.line.now self.entry.at }
        ensures outcome { number_outcome_of result ≡ number_outcome self.entry.line.now self.entry.at }
    {
        number_at(self.line, self.at)
    }
}
