// A reply as it is written: text, numbers, sample sizes and marks, one after another.
#![tactic(auto)]

ghost use Rattle.std.specs.Prelude.{◌≡◌, [], ◌∷◌, ◌++◌, ◌+◌, ◌≤◌, length};
ghost use Rattle.cumsum.specs.Marks.{mark_byte};
ghost use Rattle.protocol.specs.Reply.{spaced, size_text};
ghost use Rattle.ascii.specs.Decimal.{decimal};

use arrayvec::ArrayVec;
use cumsum::Mark;
use itoa::Buffer;
use protocol::REPLY_SIZE;
use std::marker::Model;

// Bytes that are put one after another, at most 96. A contract sees the list of them.
#[derive(Drop)]
pub struct Text {
    bytes: ArrayVec<u8, REPLY_SIZE>,
}

impl Model for Text {
    ghost use Rattle.std.specs.Prelude.{List, ℕ};

    ghost Value = { List ℕ };

    ghost view = { λ t. t.bytes.items };
}

impl Text {
    pub fn new() -> Text
        ensures { result ≡ [] }
    {
        Text {
            bytes: ArrayVec::new(),
        }
    }

    pub fn as_bytes(&self) -> &[u8]
        ensures value { result.now ≡ self.now }
        ensures fits { length result.now ≤ 96 }
    {
        self.bytes.as_slice()
    }

    // These bytes alone, whatever was put before: the first of a reply.
    pub fn set(&mut self, bytes: &[u8])
        requires { length bytes.now ≤ 96 }
        ensures { self.new ≡ bytes.now }
    {
        self.bytes.clear();
        self.put(bytes);
    }

    // All of these bytes.
    pub fn put(&mut self, bytes: &[u8])
        requires { length self.old + length bytes.now ≤ 96 }
        ensures { self.new ≡ self.old ++ bytes.now }
    {
        self.bytes.try_extend_from_slice(bytes).unwrap();
    }

    // A space, and a number in decimal, at most 20 digits.
    #[tactic(auto, using(crate::proofs::Decimal::spaced_decimal, ascii::proofs::Decimal::few_digits))]
    pub fn number(&mut self, n: u64)
        requires { length self.old + 21 ≤ 96 }
        ensures written { self.new ≡ self.old ++ spaced (decimal n) }
        ensures at_most { length self.new ≤ length self.old + 21 }
    {
        self.put(b" ");
        self.put(Buffer::new().format(n).as_bytes());
    }

    // A space, and a sample size in tenths or '-' for none.
    pub fn size(&mut self, size: Option<u64>)
        requires { length self.old + 21 ≤ 96 }
        ensures written { self.new ≡ self.old ++ spaced (size_text size) }
        ensures at_most { length self.new ≤ length self.old + 21 }
    {
        match size {
            Some(tenths) => self.number(tenths),
            None => self.put(b" -"),
        }
    }

    // A space, and two marks joined.
    pub fn marks(&mut self, hcnox: Mark, co: Mark)
        requires { length self.old + 3 ≤ 96 }
        ensures { self.new ≡ self.old ++ spaced (mark_byte hcnox ∷ mark_byte co ∷ []) }
    {
        self.put(&[b' ', u8::from(hcnox), u8::from(co)]);
    }
}
