// Scanning a journal for its wall page ("report"): as `scan` does, and what the line of each engine shows is noted when the engine is entered, so that no figure is
// worked twice.
#![tactic(auto)]

ghost use Rattle.std.specs.Prelude.{◌≡◌, List, [], ◌∷◌, ◌++◌, ◌≤◌, IfSome};
ghost use Rattle.figures.specs.Running.{running};
ghost use Rattle.year.specs.declared.Tested.{Tested};
ghost use Rattle.year.specs.Setup.{Hcnox, Co};
ghost use Rattle.year.specs.Replay.{history};
ghost use Rattle.journal.specs.Read.{read_journal};
ghost use Rattle.report.specs.Report.{row_of};
ghost use Rattle.report_scan.specs.Rows.{report_rows, Noting};
ghost use Rattle.slots.specs.Scanned.{year_of, Entered, entered};

use admission::is_admissible;
use arrayvec::ArrayVec;
use event_decoder::read_slot;
use figures::Running;
use journal::{JOURNAL_SIZE, slots_in};
use progress::Progress;
use report::Row;
use scan::head;
use year::{Event, MOST_ENGINES, Pair, Tested};

// In order of entry.
pub type Rows = ArrayVec<Row, MOST_ENGINES>;

// What the line of an engine shows, from the figures at that engine.
#[tactic(auto, using(crate::proofs::Noted::row_is))]
fn row_of(x: &Tested, figures: &Pair<Running>) -> Row
    ensures { (earlier : List Tested) → figures.now.hcnox ≡ running 1024 (history Hcnox (x.now ∷ earlier)) → figures.now.co ≡ running 1024 (history Co (x.now ∷ earlier)) → result ≡ row_of x.now earlier }
{
    Row {
        number: x.number,
        results: x.results,
        cumsum: Pair {
            hcnox: figures.hcnox.cumsum,
            co: figures.co.cumsum,
        },
        marks: Pair {
            hcnox: u8::from(figures.hcnox.mark),
            co: u8::from(figures.co.mark),
        },
    }
}

// Notes an event of a year: an engine has a row more, and a deletion takes the newest one away.
fn note(rows: &mut Rows, e: Event, p: &Progress)
    requires { Noting rows.old.items e p.now }
    ensures { rows.new.items ≡ report_rows p.now.tested }
{
    match e {
        Event::Engine { .. } => {
            if let [.., x] = p.engines.as_slice() {
                rows.push(row_of(x, &p.figures));
            }
        }
        Event::Deletion => {
            rows.pop();
        }
        Event::Amendment(_) | Event::NextPeriod | Event::Declaration => {}
    }
}

// Enters the events of the first slots, as `enter_slots` does, and notes each.
fn enter_rows(
    journal: &[u8; JOURNAL_SIZE],
    count: usize,
    first: Progress,
    rows: &mut Rows,
) -> Option<Progress>
    requires { (count ≤ 64) × Entered journal.now 0 first × (rows.old.items ≡ []) }
    ensures year { result ≡ year_of (entered journal.now count) }
    ensures rows { IfSome result (λ p. rows.new.items ≡ report_rows p.tested) }
{
    let mut p = first;
    for slot in &slots_in(journal)[..count] {
        let e = read_slot(slot)?;
        if !is_admissible(&p, e) {
            return None;
        }
        p.enter(e);
        note(rows, e, &p);
    }
    Some(p)
}

// Reads a buffer of a journal's size, as `scan_bytes` does, and notes what each line of its page shows.
pub fn scan_rows(journal: &[u8; JOURNAL_SIZE], rows: &mut Rows) -> Option<Progress>
    requires { rows.old.items ≡ [] }
    ensures year { result ≡ year_of (read_journal journal.now) }
    ensures rows { IfSome result (λ p. rows.new.items ≡ report_rows p.tested) }
{
    let (setup, count) = head(journal)?;
    enter_rows(journal, count, Progress::start(setup), rows)
}
