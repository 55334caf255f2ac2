// What the test programs share: the lines of the input and their numbers, how a status is printed, a digest, an array's size.
#![tactic(auto)]

ghost use Rattle.std.specs.Prelude.{◌≡◌, ◌+◌, ◌*◌, ◌%◌};

pub mod input;
pub mod numbers;
pub mod shown;

// The size of the array that a test program lends from, sixteen bytes more than a journal's.
pub const ROOM: usize = 560;

// What a digest is taken by.
pub const MODULUS: u64 = 4294967291;

// A digest with one more number; it begins as 1.
pub fn digested(digest: u64, number: u64) -> u64
    ensures { result ≡ (digest % MODULUS * 31 + number % MODULUS) % MODULUS }
{
    (digest % MODULUS * 31 + number % MODULUS) % MODULUS
}
