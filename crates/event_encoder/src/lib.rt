// Writing an event: its slot of the journal, byte 24, and byte 3 for the first strike.
#![tactic(auto)]

ghost use Rattle.std.specs.Prelude.{◌≡◌, ◌<◌, get_or};
ghost use Rattle.journal.specs.Encode.{slot, slot_of, with_slot, version_in, raises, append};
ghost use Rattle.event_encoder.specs.Fits.{EventFits};

use buffers::little_endian::{bytes16, number16};
use journal::{
    COUNT_PLACE, DELETION_VERSION, FIRST_VERSION, JOURNAL_SIZE, SLOT_SIZE, VERSION_PLACE, kind,
    pair_bytes, slot_place,
};
use year::{Event, Pair};

// The eight bytes of a slot: its kind, the readings, and three two-byte numbers.
fn slot(kind: u8, readings: u8, numbers: Pair<u32>, number: u32) -> [u8; SLOT_SIZE]
    ensures { result ≡ slot (record { kind = kind; readings = readings; first = numbers.hcnox; second = numbers.co; third = number }) }
{
    let [h0, h1, c0, c1] = pair_bytes(numbers);
    let [n0, n1] = bytes16(number);
    [kind, readings, h0, h1, c0, c1, n0, n1]
}

// The slot of an event.
fn slot_of(e: Event) -> [u8; SLOT_SIZE]
    requires { EventFits e }
    ensures { result ≡ slot_of e }
{
    match e {
        Event::Engine {
            number,
            readings,
            results,
        } => slot(kind::ENGINE, readings as u8, results, number),
        Event::Amendment(standards) => slot(kind::AMENDMENT, 0, standards, 0),
        Event::NextPeriod => [kind::NEXT_PERIOD, 0, 0, 0, 0, 0, 0, 0],
        Event::Declaration => [kind::DECLARATION, 0, 0, 0, 0, 0, 0, 0],
        Event::Deletion => [kind::DELETION, 0, 0, 0, 0, 0, 0, 0],
    }
}

// Whether an event is the first deletion ("strike") of a journal of version 1.
fn raises(journal: &[u8; JOURNAL_SIZE], e: Event) -> bool
    ensures { result ≡ raises e (version_in journal.now) }
{
    matches!(e, Event::Deletion) && number16(journal, VERSION_PLACE) == u32::from(FIRST_VERSION)
}

// Writes an event into its slot, and the number of events into byte 24.
#[tactic(auto, using(crate::proofs::Appended::appended))]
fn add_slot(journal: &mut [u8; JOURNAL_SIZE], e: Event)
    requires { (get_or journal.old 24 0 < 64) × EventFits e }
    ensures { journal.new ≡ with_slot journal.old e }
{
    let at = slot_place(usize::from(journal[COUNT_PLACE]));
    journal[at..at + SLOT_SIZE].copy_from_slice(&slot_of(e));
    journal[COUNT_PLACE] += 1;
}

// Appends an event. The first strike makes version 1 version 2, in byte 3.
#[tactic(auto, using(buffers::proofs::Lists::put_one), unfolding(journal::specs::Encode::append))]
pub fn append(journal: &mut [u8; JOURNAL_SIZE], e: Event)
    requires { (get_or journal.old 24 0 < 64) × EventFits e }
    ensures { journal.new ≡ append journal.old e }
{
    let first = raises(journal, e);
    add_slot(journal, e);
    if first {
        journal[VERSION_PLACE] = DELETION_VERSION;
    }
}
