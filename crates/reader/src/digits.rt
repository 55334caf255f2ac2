// The digits at a position of a line.
ghost use Rattle.std.specs.Prelude.{◌≡◌, ◌≤◌, length, min, take};
ghost use Rattle.protocol.specs.Number.{is_number, number_at};
ghost use Rattle.ascii.specs.Decimal.{digits, spelt};

use protocol::Number;

// Digits at the front of some bytes: how many they are, and the number that they spell.
#[derive(Clone, Copy)]
struct Digits {
    count: usize,
    value: u32,
}

// The digits at the front, at most nine: a ninth shows that there are too many.
#[tactic(auto, using(crate::proofs::Spelling::digits_past, crate::proofs::Spelling::digits_stop), unfolding(ascii::specs::Decimal::spelt))]
fn read_digits(bytes: &[u8]) -> Digits
    ensures count { result.count ≡ min 9 (digits bytes.now) }
    ensures value { result.value ≡ spelt 0 (take result.count bytes.now) }
{
    let mut value: u32 = 0;
    for (count, b) in bytes.iter().enumerate() {
        if count == 9 || !b.is_ascii_digit() {
            return Digits { count, value };
        }
        let digit = u32::from(*b - b'0');
        value = value * 10 + digit;
    }
    Digits {
        count: bytes.len(),
        value,
    }
}

// Whether that many digits at the front are a number: 1 to 8 of them, with no leading zero except in 0 itself.
#[tactic(auto, unfolding(protocol::specs::Number::is_number))]
fn is_number(bytes: &[u8], count: usize) -> bool
    requires { count ≤ length bytes.now }
    ensures { result ≡ is_number bytes.now 0 count }
{
    (1..=8).contains(&count) && (count == 1 || bytes[0] != b'0')
}

// The number at a position of a line, with the position after it.
#[tactic(auto, using(crate::proofs::Spelling::digits_fit, crate::proofs::Spelling::past_end, crate::proofs::Spelling::no_number, crate::proofs::Spelling::number))]
pub fn number_at(line: &[u8], at: usize) -> Option<Number>
    ensures { result ≡ number_at line.now at }
{
    let rest = line.get(at..)?;
    let Digits { count, value } = read_digits(rest);
    if !is_number(rest, count) {
        return None;
    }
    Some(Number {
        value,
        next: at + count,
    })
}
