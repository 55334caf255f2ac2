// Decoding a journal's first 32 bytes, and testing that they are in the one accepted form.
#![tactic(auto)]

ghost use Rattle.std.specs.Prelude.{◌≡◌, ◌≤◌, length};
ghost use Rattle.journal.specs.Read.{setup_in};
ghost use Rattle.journal.specs.Acceptance.{is_header};

use buffers::little_endian::{number16, number32};
use buffers::parts::is_zero;
use journal::{HEADER_SIZE, pair16};
use rounding::Factor;
use year::{Pair, Setup};

// The setup in the first 32 bytes.
pub fn setup_in(journal: &[u8]) -> Setup
    requires { 32 ≤ length journal.now }
    ensures { result ≡ setup_in journal.now }
{
    Setup {
        volume: number32(journal, 8),
        days: number16(journal, 12),
        standards: pair16(journal, 14),
        factors: Pair {
            hcnox: journal[18],
            co: journal[19],
        }
        .zip(pair16(journal, 20))
        .map(|(kind, value)| Factor {
            kind: u32::from(kind),
            value,
        }),
    }
}

// Whether the first 32 bytes encode some version, setup and number of events: the bytes that are the same for all of these are as they must be.
#[tactic(auto, using(crate::proofs::Headers::header_tests))]
pub fn is_header(journal: &[u8]) -> bool
    requires { 32 ≤ length journal.now }
    ensures { result ≡ is_header journal.now }
{
    journal.starts_with(b"PLT") && is_zero(&journal[5..8]) && is_zero(&journal[25..HEADER_SIZE])
}
