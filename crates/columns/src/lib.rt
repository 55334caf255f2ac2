// A line of columns as it is written, from left to right: numbers and marks, right-aligned with spaces (document 02, W-205). The definitions are in specs/.
#![tactic(auto)]

ghost use Rattle.std.specs.Prelude.{◌≡◌, [], ◌∷◌, ◌++◌, ◌+◌, ◌-◌, ◌%◌, ◌^◌, ◌≤◌, ◌<◌, length};
ghost use Rattle.buffers.specs.Bytes.{put};
ghost use Rattle.ascii.specs.Text.{byte};
ghost use Rattle.ascii.specs.Decimal.{decimal};
ghost use Rattle.columns.specs.Columns.{spaces, column};

use std::marker::Model;

// "lines exactly 60 bytes and a newline"
pub const LINE_SIZE: usize = 61;

// A line whose columns end at `place`, and that is blank from there on. A contract sees the bytes of the columns.
#[derive(Drop)]
pub struct Line {
    bytes: [u8; LINE_SIZE],
    place: usize,
}

impl Model for Line {
    ghost use Rattle.std.specs.Prelude.{◌≡◌, List, [], ◌∷◌, ◌++◌, ℕ, ◌-◌, ◌≤◌, take, drop};
    ghost use Rattle.ascii.specs.Text.{byte};
    ghost use Rattle.columns.specs.Columns.{spaces};

    ghost Value = { List ℕ };

    ghost view = { λ l. take l.place l.bytes };

    ghost invariant = { λ l. (l.place ≤ 60) × (drop l.place l.bytes ≡ spaces (60 - l.place) ++ byte "\n" ∷ []) };
}

// The last digit of a number.
fn digit(n: u64) -> u8
    ensures { result ≡ byte "0" + n % 10 }
{
    b'0' + (n % 10) as u8
}

// Writes a number's digits so that the last of them is in front of `end`.
fn put_digits(bytes: &mut [u8; LINE_SIZE], end: usize, n: u64)
    requires { (length (decimal n) ≤ end) × (end ≤ 61) }
    ensures { bytes.new ≡ put bytes.old (end - length (decimal n)) (decimal n) }
{
    let mut at = end - 1;
    bytes[at] = digit(n);
    let mut rest = n / 10;
    while rest != 0 {
        at -= 1;
        bytes[at] = digit(rest);
        rest /= 10;
    }
}

impl Line {
    pub fn new() -> Line
        ensures { result ≡ [] }
    {
        let mut bytes = [b' '; LINE_SIZE];
        bytes[60] = b'\n';
        Line { bytes, place: 0 }
    }

    // The whole line: the columns, spaces and the newline.
    pub fn as_bytes(&self) -> &[u8]
        ensures written { result.now ≡ self.now ++ spaces (60 - length self.now) ++ byte "\n" ∷ [] }
        ensures size { length result.now ≡ 61 }
    {
        &self.bytes
    }

    // A number that fits its column.
    pub fn figure(&mut self, width: usize, n: u64)
        requires fits { (1 ≤ width) × (n < 10 ^ width) }
        requires room { length self.old + width ≤ 60 }
        ensures written { self.new ≡ self.old ++ column width (decimal n) }
        ensures size { length self.new ≡ length self.old + width }
    {
        let end = self.place + width;
        put_digits(&mut self.bytes, end, n);
        self.place = end;
    }

    // A mark.
    pub fn symbol(&mut self, width: usize, byte: u8)
        requires { (1 ≤ width) × (length self.old + width ≤ 60) }
        ensures written { self.new ≡ self.old ++ column width (byte ∷ []) }
        ensures size { length self.new ≡ length self.old + width }
    {
        let end = self.place + width;
        self.bytes[end - 1] = byte;
        self.place = end;
    }
}
