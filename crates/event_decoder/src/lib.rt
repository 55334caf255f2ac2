// Reading a journal's slot: the event, if its bytes are in the one accepted form; and decoding any part of a journal, whatever its bytes.
#![tactic(auto)]

ghost use Rattle.std.specs.Prelude.{◌≡◌, ◌≤◌, cond, length};
ghost use Rattle.journal.specs.Read.{event_in};
ghost use Rattle.journal.specs.Acceptance.{is_slot};

use buffers::little_endian::number16;
use journal::{SLOT_SIZE, kind, pair16};
use year::Event;

// The event in a slot, if it has a named kind, and its unnamed bytes are zero. (Kinds 3 to 5 share a pattern: one for each makes a scan slower.)
#[tactic(auto, using(crate::proofs::Slots::engine, crate::proofs::Slots::amendment, crate::proofs::Slots::next_period, crate::proofs::Slots::declaration, crate::proofs::Slots::deletion, crate::proofs::Slots::no_kind))]
pub fn read_slot(slot: &[u8; SLOT_SIZE]) -> Option<Event>
    ensures { result ≡ cond (is_slot slot.now) (Some (event_in slot.now)) None }
{
    match *slot {
        [kind::ENGINE, readings, ..] => Some(Event::Engine {
            number: number16(slot, 6),
            readings: u32::from(readings),
            results: pair16(slot, 2),
        }),
        [kind::AMENDMENT, 0, .., 0, 0] => Some(Event::Amendment(pair16(slot, 2))),
        [bare, 0, 0, 0, 0, 0, 0, 0] => match bare {
            kind::NEXT_PERIOD => Some(Event::NextPeriod),
            kind::DECLARATION => Some(Event::Declaration),
            kind::DELETION => Some(Event::Deletion),
            _ => None,
        },
        _ => None,
    }
}

// The event in the slot at the front of a part, in the accepted form or not.
pub fn event_at(part: &[u8]) -> Event
    requires { 8 ≤ length part.now }
    ensures { result ≡ event_in part.now }
{
    match part[0] {
        kind::ENGINE => Event::Engine {
            number: number16(part, 6),
            readings: u32::from(part[1]),
            results: pair16(part, 2),
        },
        kind::AMENDMENT => Event::Amendment(pair16(part, 2)),
        kind::NEXT_PERIOD => Event::NextPeriod,
        kind::DELETION => Event::Deletion,
        _ => Event::Declaration,
    }
}

// Whether the slot at the front of a part has a named kind, and its unnamed bytes are zero.
#[tactic(auto, using(crate::proofs::Slots::front_slot))]
pub fn is_slot(part: &[u8]) -> bool
    requires { 8 ≤ length part.now }
    ensures { result ≡ is_slot part.now }
{
    match part.first_chunk() {
        Some(slot) => read_slot(slot).is_some(),
        None => false,
    }
}
