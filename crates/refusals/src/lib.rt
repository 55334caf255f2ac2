// Which calls are refused, and by which refusal: the tests of the one table of refusals (`refusals` of the crate reference), in its order. The rows of an entry
// of its own are in the crates change_decision and engine_decision. Nothing is written.
#![tactic(auto)]

ghost use Rattle.std.specs.Prelude.{◌≡◌, [], IfOk, Some};
ghost use Rattle.conditions.specs.Rows.{first};
ghost use Rattle.year.specs.Model.{NoSetup};
ghost use Rattle.journal.specs.Read.{read_journal};
ghost use Rattle.reference.specs.Call.{Marks, Report, ReadStatus, Write, SetUp, Ask};
ghost use Rattle.report_scan.specs.Rows.{report_rows};
ghost use Rattle.reference.specs.Refusals.{refusal};
ghost use Rattle.reference.specs.Refused.{refused};
ghost use Rattle.reference.specs.Answers.{refusal_on};
ghost use Rattle.slots.specs.Scanned.{year_of};
ghost use Rattle.refusals.specs.Parts.{year_rows, entry_rows};

use columns::LINE_SIZE;
use journal::JOURNAL_SIZE;
use progress::Progress;
use reference::Refusal;
use report_scan::{Rows, scan_rows};
use scan::scan_bytes;
use schedule::{factors_in_range, production_in_range, standards_in_range};
use verdicts::verdict::closed;
use year::{MOST_EVENTS, Setup};

// Refusals 4, 5 and 6, for a setup on a buffer of a journal's size. Setup does not test what the buffer holds.
#[tactic(auto, unfolding(reference::specs::Refusals::refusal, reference::specs::Refusals::refusals))]
pub fn check_setup(s: Setup) -> Result<(), Refusal>
    ensures { refused result ≡ refusal 544 (SetUp s) NoSetup }
{
    if !production_in_range(s) {
        return Err(Refusal::ProductionRange);
    }
    if !standards_in_range(s.standards) {
        return Err(Refusal::StandardRange);
    }
    if !factors_in_range(s) {
        return Err(Refusal::FactorRange);
    }
    Ok(())
}

// Refusals 3, 4, 5 and 6, for a setup on a buffer of any size.
#[tactic(auto, unfolding(reference::specs::Refusals::refusal, reference::specs::Refusals::refusals))]
pub fn setup_refusal(journal: &[u8], s: Setup) -> Result<(), Refusal>
    ensures { refused result ≡ refusal_on (SetUp s) journal.now }
{
    if journal.len() != JOURNAL_SIZE {
        return Err(Refusal::JournalSize);
    }
    check_setup(s)
}

// Refusals 3 and 7; otherwise the year that the journal holds.
#[tactic(auto, unfolding(reference::specs::Refusals::refusal, reference::specs::Refusals::refusals))]
pub fn check_status(journal: &[u8]) -> Result<Progress, Refusal>
    ensures refusal { refused result ≡ refusal_on (Ask ReadStatus) journal.now }
    ensures year { IfOk result (λ p. Some p ≡ year_of (read_journal journal.now)) }
{
    let journal = journal.as_array().ok_or(Refusal::JournalSize)?;
    scan_bytes(journal).ok_or(Refusal::NotAJournal)
}

// Refusals 3, 7 and 16, for an output of this size; otherwise the year that the journal holds.
#[tactic(auto, using(crate::proofs::Outputs::marks_refused))]
pub fn check_marks(journal: &[u8], size: usize) -> Result<Progress, Refusal>
    ensures refusal { refused result ≡ refusal_on (Ask (Write Marks size)) journal.now }
    ensures year { IfOk result (λ p. Some p ≡ year_of (read_journal journal.now)) }
{
    let p = check_status(journal)?;
    if size < 2 * p.engines.len() {
        return Err(Refusal::MarksSize);
    }
    Ok(p)
}

// Refusals 3 and 7, as for status; otherwise the year that the journal holds, and what the lines of its page show.
#[tactic(auto, unfolding(reference::specs::Refusals::refusal, reference::specs::Refusals::refusals))]
fn check_rows(journal: &[u8], rows: &mut Rows) -> Result<Progress, Refusal>
    requires { rows.old.items ≡ [] }
    ensures refusal { refused result ≡ refusal_on (Ask ReadStatus) journal.now }
    ensures year { IfOk result (λ p. Some p ≡ year_of (read_journal journal.now)) }
    ensures rows { IfOk result (λ p. rows.new.items ≡ report_rows p.tested) }
{
    let whole = journal.as_array().ok_or(Refusal::JournalSize)?;
    scan_rows(whole, rows).ok_or(Refusal::NotAJournal)
}

// Refusals 3, 7 and 18, for an output of this size; otherwise the same.
#[tactic(auto, using(crate::proofs::Outputs::report_refused))]
pub fn check_report(journal: &[u8], size: usize, rows: &mut Rows) -> Result<Progress, Refusal>
    requires { rows.old.items ≡ [] }
    ensures refusal { refused result ≡ refusal_on (Ask (Write Report size)) journal.now }
    ensures year { IfOk result (λ p. Some p ≡ year_of (read_journal journal.now)) }
    ensures rows { IfOk result (λ p. rows.new.items ≡ report_rows p.tested) }
{
    let p = check_rows(journal, rows)?;
    if size < LINE_SIZE * (p.engines.len() + 1) {
        return Err(Refusal::ReportSize);
    }
    Ok(p)
}

// Refusals 7, 8 and 9, which can apply to every entry; otherwise the year that the journal holds.
#[tactic(auto, using(crate::proofs::Open::open_none))]
pub fn open_year(journal: &[u8; JOURNAL_SIZE]) -> Result<Progress, Refusal>
    ensures refusal { refused result ≡ first (year_rows journal.now) 0 }
    ensures year { IfOk result (λ p. Some p ≡ year_of (read_journal journal.now)) }
{
    let p = scan_bytes(journal).ok_or(Refusal::NotAJournal)?;
    if closed(&p) {
        return Err(Refusal::YearClosed);
    }
    if MOST_EVENTS <= p.stored {
        return Err(Refusal::EventsFull);
    }
    Ok(p)
}

// Refusals 3, 7, 8 and 9, which can apply to every entry, on a buffer of any size, and in its place in the order 5, which applies if an amendment's standards are
// unfit; otherwise the year that the journal holds.
#[tactic(auto, using(crate::proofs::EntryRows::size_first, crate::proofs::EntryRows::then_unfit, crate::proofs::EntryRows::then_year))]
pub fn entry_refusal(journal: &[u8], unfit: bool) -> Result<Progress, Refusal>
    ensures refusal { refused result ≡ first (entry_rows unfit journal.now) 0 }
    ensures year { IfOk result (λ p. Some p ≡ year_of (read_journal journal.now)) }
{
    let bytes = journal.as_array().ok_or(Refusal::JournalSize)?;
    if unfit {
        return Err(Refusal::StandardRange);
    }
    open_year(bytes)
}
