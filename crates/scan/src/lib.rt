// Reading a buffer of any length and content as a journal, from its first event to its last.
#![tactic(auto)]

ghost use Rattle.std.specs.Prelude.{◌≡◌};
ghost use Rattle.journal.specs.Read.{read_journal};
ghost use Rattle.scan.specs.Head.{Headed};
ghost use Rattle.slots.specs.Scanned.{year_of};

use buffers::parts::is_zero;
use journal::{COUNT_PLACE, JOURNAL_SIZE, SLOTS, slot_place};
use progress::Progress;
use schedule::setup_in_range;
use setup_decoder::{is_header, setup_in};
use slots::enter_slots;
use versions::is_version;
use year::Setup;

// The setup and the number of events of a buffer of a journal's size: tests its header, version and unused slots, and the setup's ranges.
pub fn head(journal: &[u8; JOURNAL_SIZE]) -> Option<(Setup, usize)>
    ensures { Headed journal.now result }
{
    let count = usize::from(journal[COUNT_PLACE]);
    if SLOTS < count {
        return None;
    }
    let header = is_header(journal);
    let version = is_version(journal, count);
    let unused = is_zero(&journal[slot_place(count)..]);
    if !(header & version & unused) {
        return None;
    }
    let setup = setup_in(journal);
    if !setup_in_range(setup) {
        return None;
    }
    Some((setup, count))
}

// Reads a buffer of a journal's size: its head, and then its events one after another.
pub fn scan_bytes(journal: &[u8; JOURNAL_SIZE]) -> Option<Progress>
    ensures { result ≡ year_of (read_journal journal.now) }
{
    let (setup, count) = head(journal)?;
    enter_slots(journal, count, Progress::start(setup))
}

// Reads a whole buffer, whatever its size.
#[tactic(auto, using(crate::proofs::Whole::other_size))]
pub fn scan_journal(journal: &[u8]) -> Option<Progress>
    ensures { result ≡ year_of (read_journal journal.now) }
{
    scan_bytes(journal.as_array()?)
}
