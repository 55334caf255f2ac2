// The numbers of a line.
ghost use Rattle.std.specs.Prelude.{◌≡◌, ◌==◌, take, drop, replicate, IfOk};
ghost use Rattle.std.specs.List.{before_first};
ghost use Rattle.year.specs.Setup.{setup_of};
ghost use Rattle.test_lines.specs.Numbers.{with_digit, read_on};

use crate::input::words;
use std::alloc::Global;
use year::Setup;

// The most numbers that a line gives: an engine's number, two counts of readings and sixteen readings. Further ones are not looked at.
pub const MOST_NUMBERS: usize = 19;

// A number with one more digit, modulo 2^32. Any byte is a digit, by its last four bits.
fn with_digit(number: u32, byte: u8) -> u32
    ensures { result ≡ with_digit number byte }
{
    number.wrapping_mul(10).wrapping_add(u32::from(byte % 16))
}

// The numbers of a line, from its third byte on, with one space between two; 0 for each that it does not have.
#[tactic(auto, using(crate::proofs::Reading::nothing_left, crate::proofs::Reading::space_read, crate::proofs::Reading::digit_read, crate::proofs::Reading::past_read))]
pub fn numbers(line: &[u8]) -> [u32; MOST_NUMBERS]
    ensures { result ≡ read_on (drop 2 line.now) 0 (replicate 19 0) }
{
    let mut numbers = [0; MOST_NUMBERS];
    let mut place = 0;
    for byte in words(line) {
        if *byte == b' ' {
            place += 1;
        } else if place < MOST_NUMBERS {
            numbers[place] = with_digit(numbers[place], *byte);
        }
    }
    numbers
}

// The setup from the first eight numbers of a line.
pub fn setup_of(numbers: &[u32; MOST_NUMBERS]) -> Setup
    ensures { result ≡ setup_of (take 8 numbers.now) }
{
    let mut first = [0; 8];
    first.copy_from_slice(&numbers[..8]);
    Setup::from(first)
}

// The numbers of a text, with white space between them.
fn parsed(alloc: Global, text: &str) -> anyhow::Result<Vec<u32>> {
    text.split_whitespace()
        .map(|word| -> anyhow::Result<u32> { Ok(word.parse()?) })
        .try_collect(alloc)
}

// What stands before the first space of a line, and the numbers after it, however many; an error where one of its words is no number.
pub fn letter_and_numbers(alloc: Global, line: &str) -> anyhow::Result<(&str, Vec<u32>)>
    ensures letter { IfOk result (λ given. given.0.now ≡ before_first (λ byte. byte == 32) line.now) }
{
    let (letter, rest) = line.split_once(' ').unwrap_or((line, ""));
    Ok((letter, parsed(alloc, rest)?))
}

#[cfg(test)]
mod tests {
    use super::*;
    use std::test::Fail;

    #[test]
    fn a_letter_and_its_numbers(rt: HostRuntime) -> Result<(), Fail> {
        for (line, letter, numbers) in [
            (
                "E 800 6100 0 4294967295",
                "E",
                [800, 6100, 0, 4294967295].as_slice(),
            ),
            ("A  1\t2 ", "A", [1, 2].as_slice()),
            ("P", "P", [].as_slice()),
            ("", "", [].as_slice()),
            (" 7", "", [7].as_slice()),
        ] {
            let given = letter_and_numbers(rt.alloc(), line)?;
            assert_eq!(rt; given.0, letter, "of {line}");
            assert_eq!(rt; given.1.as_slice(), numbers, "of {line}");
        }
        Ok(())
    }

    #[test]
    fn further_numbers(rt: HostRuntime) -> Result<(), Fail> {
        let given = letter_and_numbers(
            rt.alloc(),
            "n 1 2 3 4 5 6 7 8 9 10 11 12 13 14 15 16 17 18 19 20 21",
        )?;
        assert_eq!(rt; given.1.len(), 21);
        assert_eq!(rt; given.1[20], 21);
        Ok(())
    }

    #[test]
    fn a_word_that_is_no_number(rt: HostRuntime) {
        for line in ["E 800 x", "E 4294967296", "E -1", "E 1,2"] {
            assert!(rt; letter_and_numbers(rt.alloc(), line).is_err(), "of {line}");
        }
    }
}
