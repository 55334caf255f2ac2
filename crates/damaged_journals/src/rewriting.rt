// A journal rewritten from what is decoded from it: its setup, and its events one by one.
use event_decoder::read_slot;
use event_encoder::append;
use journal::{COUNT_PLACE, JOURNAL_SIZE, SLOT_SIZE, SLOTS, slots_in};
use setup_decoder::setup_in;
use setup_encoder::write_setup;

// The journal with the event of a slot appended, if the slot has one and there is room.
fn with_slot(
    mut journal: [u8; JOURNAL_SIZE],
    slot: &[u8; SLOT_SIZE],
) -> Option<[u8; JOURNAL_SIZE]> {
    if usize::from(journal[COUNT_PLACE]) >= SLOTS {
        return None;
    }
    append(&mut journal, read_slot(slot)?);
    Some(journal)
}

// The journal rewritten, if each of its slots has an event.
fn rewritten(journal: &[u8; JOURNAL_SIZE]) -> Option<[u8; JOURNAL_SIZE]> {
    let mut out = [255; JOURNAL_SIZE];
    write_setup(&mut out, setup_in(journal));
    slots_in(journal)
        .get(..usize::from(journal[COUNT_PLACE]))?
        .iter()
        .try_fold(out, with_slot)
}

// Whether the rewritten journal has the same bytes.
pub fn is_rewritten(journal: &[u8; JOURNAL_SIZE]) -> bool {
    rewritten(journal) == Some(*journal)
}
