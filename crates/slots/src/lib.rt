// The events of a journal's slots, entered one after another.
#![tactic(auto)]

ghost use Rattle.std.specs.Prelude.{◌≡◌, ◌≤◌};
ghost use Rattle.slots.specs.Scanned.{year_of, Entered, entered};

use admission::is_admissible;
use event_decoder::read_slot;
use journal::{JOURNAL_SIZE, slots_in};
use progress::Progress;

// Enters the events of the first slots one after another, starting from the state of a setup alone. There is no year if a slot is not in the one accepted form,
// or its event could not be entered then.
pub fn enter_slots(journal: &[u8; JOURNAL_SIZE], count: usize, first: Progress) -> Option<Progress>
    requires { (count ≤ 64) × Entered journal.now 0 first }
    ensures { result ≡ year_of (entered journal.now count) }
{
    let mut p = first;
    for slot in &slots_in(journal)[..count] {
        let e = read_slot(slot)?;
        if !is_admissible(&p, e) {
            return None;
        }
        p.enter(e);
    }
    Some(p)
}
