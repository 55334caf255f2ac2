// The version of a stored journal: whether the one that it says can hold its events.
#![tactic(auto)]

ghost use Rattle.std.specs.Prelude.{◌≡◌, ◌≤◌};
ghost use Rattle.year.specs.Deletions.{has_deletion};
ghost use Rattle.journal.specs.Read.{events_in};
ghost use Rattle.journal.specs.Acceptance.{is_version};

use buffers::little_endian::number16;
use journal::{DELETION_VERSION, FIRST_VERSION, JOURNAL_SIZE, VERSION_PLACE, kind, slots_in};

// Whether one of the first slots holds a deletion ("strike"). It looks at all of them, with no branch: an early exit is slower.
fn has_deletion(journal: &[u8; JOURNAL_SIZE], count: usize) -> bool
    requires { count ≤ 64 }
    ensures { result ≡ has_deletion (events_in journal.now count) }
{
    slots_in(journal)[..count]
        .iter()
        .fold(false, |found, slot| found | (slot[0] == kind::DELETION))
}

// Whether the version in bytes 3 and 4 is 2 if there is a strike among the events, and 1 if not.
#[tactic(auto, unfolding(journal::specs::Acceptance::is_version, journal::specs::Encode::can_hold))]
pub fn is_version(journal: &[u8; JOURNAL_SIZE], count: usize) -> bool
    requires { count ≤ 64 }
    ensures { result ≡ is_version journal.now count }
{
    let version = if has_deletion(journal, count) {
        DELETION_VERSION
    } else {
        FIRST_VERSION
    };
    number16(journal, VERSION_PLACE) == u32::from(version)
}
