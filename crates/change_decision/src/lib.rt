// The decision on a change: the event that it adds, or its refusal. Nothing is written.
#![tactic(auto)]

ghost use Rattle.std.specs.Prelude.{◌≡◌};
ghost use Rattle.conditions.specs.Rows.{first};
ghost use Rattle.reference.specs.Call.{EnterChange};
ghost use Rattle.reference.specs.Refused.{refused};
ghost use Rattle.refusals.specs.Parts.{standards_rows};
ghost use Rattle.refusals.specs.Decisions.{decision_on};
ghost use Rattle.change_decision.specs.Changes.{change_decision};

use admission::{deletion_fits, period_fits};
use progress::Progress;
use reference::{Change, Refusal};
use refusals::entry_refusal;
use schedule::standards_in_range;
use year::Event;

// Refusal 5: an amendment's standards are out of range or not multiples of ten. It is tested before the journal is read.
pub fn check_standards(c: Change) -> Result<(), Refusal>
    ensures { refused result ≡ first (standards_rows (EnterChange c)) 0 }
{
    match c {
        Change::Amend(standards) if !standards_in_range(standards) => Err(Refusal::StandardRange),
        _ => Ok(()),
    }
}

// Refusals 17 and 15, on a year that is open; otherwise the event.
pub fn change(p: &Progress, c: Change) -> Result<Event, Refusal>
    ensures { result ≡ change_decision c p.now }
{
    match c {
        Change::Delete if !deletion_fits(p) => Err(Refusal::NothingToDelete),
        Change::BeginPeriod if !period_fits(p) => Err(Refusal::NoNextPeriod),
        _ => Ok(Event::from(c)),
    }
}

// The decision on a change on a journal of any length and content: the first refusal of the whole table, or the event that its entry would add.
pub fn decide(journal: &[u8], c: Change) -> Result<Event, Refusal>
    ensures { result ≡ decision_on (EnterChange c) journal.now }
{
    let unfit = check_standards(c).is_err();
    let year = entry_refusal(journal, unfit)?;
    change(&year, c)
}
