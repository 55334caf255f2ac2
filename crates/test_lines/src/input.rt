// Lines of the input.
ghost use Rattle.std.specs.Prelude.{◌≡◌, ◌≢◌, ◌≤◌, All, drop, length};

use arrayvec::ArrayVec;
use std::io::BufRead;

// The most bytes of a line; the bytes after them are a line of their own.
pub const LINE_SIZE: usize = 256;

// The next byte of the input; a newline at its end, and where it cannot be read.
fn next_byte<I: BufRead>(input: &mut I) -> u8 {
    let Ok(&[byte, ..]) = input.fill_buf() else {
        return b'\n';
    };
    input.consume(1);
    byte
}

// The next line, without its newline. It is empty at the end of the input too.
pub fn read_line<I: BufRead>(input: &mut I) -> ArrayVec<u8, LINE_SIZE>
    ensures one_line { All (λ byte. byte ≢ 10) result.items }
    ensures at_most { length result.items ≤ 256 }
{
    let mut line = ArrayVec::new();
    for _ in 0..LINE_SIZE {
        match next_byte(input) {
            b'\n' => break,
            byte => line.push(byte),
        }
    }
    line
}

// The words of a line, which begin after its letter and one byte more.
pub fn words(line: &[u8]) -> &[u8]
    ensures { result.now ≡ drop 2 line.now }
{
    line.get(2..).unwrap_or(&[])
}
