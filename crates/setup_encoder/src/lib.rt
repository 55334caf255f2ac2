// A setup written over all bytes of a journal.
#![tactic(auto)]

ghost use Rattle.std.specs.Prelude.{◌≡◌, []};
ghost use Rattle.journal.specs.Encode.{setup_version, header, encode};
ghost use Rattle.setup_encoder.specs.Fits.{SetupFits};

use buffers::little_endian::{bytes16, bytes32};
use journal::{FIRST_VERSION, HEADER_SIZE, JOURNAL_SIZE, VERSION_PLACE, pair_bytes};
use year::Setup;

// The first 32 bytes: "PLT", version 1, the setup, and no events.
fn header(s: Setup) -> [u8; HEADER_SIZE]
    requires { SetupFits s }
    ensures { result ≡ header setup_version s 0 }
{
    let mut header = [0; HEADER_SIZE];
    header[0..3].copy_from_slice(b"PLT");
    header[VERSION_PLACE] = FIRST_VERSION;
    header[8..12].copy_from_slice(&bytes32(s.volume));
    header[12..14].copy_from_slice(&bytes16(s.days));
    header[14..18].copy_from_slice(&pair_bytes(s.standards));
    header[18] = s.factors.hcnox.kind as u8;
    header[19] = s.factors.co.kind as u8;
    header[20..24].copy_from_slice(&pair_bytes(s.factors.map(|factor| factor.value)));
    header
}

// Writes all 544 bytes of a setup with no events, in version 1, whatever the buffer held.
pub fn write_setup(journal: &mut [u8; JOURNAL_SIZE], s: Setup)
    requires { SetupFits s }
    ensures { journal.new ≡ encode setup_version s [] }
{
    journal.fill(0);
    journal[..HEADER_SIZE].copy_from_slice(&header(s));
}
