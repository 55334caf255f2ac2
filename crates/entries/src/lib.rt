// The public calls that write the journal: setup, and the entries of an engine and of a change; and the preview of an engine, which answers as its entry would and
// writes nothing. None has a precondition, on its arguments or on lent buffers. Each contract gives the whole answer (its value, and its refusal number and figures
// as in the specification, `outcome`) and every byte of each buffer that the call may write, refused or not.
#![tactic(auto)]

ghost use Rattle.std.specs.Prelude.{◌≡◌, ◌<◌, get_or};
ghost use Rattle.year.specs.Replay.{after};
ghost use Rattle.year.specs.Status.{status};
ghost use Rattle.progress.specs.State.{MayEnter};
ghost use Rattle.journal.specs.Encode.{append};
ghost use Rattle.reference.specs.Call.{entry_of, preview_of, EnterChange, SetUp, Enter, Ask};
ghost use Rattle.reference.specs.Answers.{journal_after, answer, outcome_of, outcome};

use change_decision::{change, check_standards};
use engine_decision::engine;
use event_encoder::append;
use journal::JOURNAL_SIZE;
use progress::Progress;
use reference::{Answer, Change, EngineEntry, Refusal};
use refusals::{check_setup, open_year};
use setup_encoder::write_setup;
use verdicts::status::status_of;
use year::{Event, Setup, Status};

// Setup: all of the buffer is written, whatever it held.
pub fn set_up(journal: &mut [u8], s: Setup) -> Answer
    ensures answer { result ≡ answer (SetUp s) journal.old }
    ensures outcome { outcome_of result ≡ outcome (SetUp s) journal.old }
    ensures journal_after { journal.new ≡ journal_after (SetUp s) journal.old }
{
    let whole = journal.as_mut_array().ok_or(Refusal::JournalSize)?;
    check_setup(s)?;
    write_setup(whole, s);
    Ok(status_of(&Progress::start(s)))
}

// Appends an event that the year admits, and gives the status of the year with it.
fn add(journal: &mut [u8; JOURNAL_SIZE], p: &mut Progress, e: Event) -> Status
    requires room { get_or journal.old 24 0 < 64 }
    requires event { MayEnter e p.old }
    ensures status { result ≡ status 1024 (after e p.old) }
    ensures journal_after { journal.new ≡ append journal.old e }
{
    append(journal, e);
    p.enter(e);
    status_of(p)
}

// The preview of an engine with its number and its readings for each pollutant: what its entry would answer, with nothing written (document 02, W-202).
pub fn preview_engine(journal: &[u8], entry: &EngineEntry<'_>) -> Answer
    ensures answer { result ≡ answer (Ask (preview_of entry.now)) journal.now }
    ensures outcome { outcome_of result ≡ outcome (Ask (preview_of entry.now)) journal.now }
{
    let journal = journal.as_array().ok_or(Refusal::JournalSize)?;
    let mut year = open_year(journal)?;
    let asked = engine(&year, entry)?;
    year.enter(asked);
    Ok(status_of(&year))
}

// The entry of an engine.
pub fn enter_engine(journal: &mut [u8], entry: &EngineEntry<'_>) -> Answer
    ensures answer { result ≡ answer (Enter (entry_of entry.now)) journal.old }
    ensures outcome { outcome_of result ≡ outcome (Enter (entry_of entry.now)) journal.old }
    ensures journal_after { journal.new ≡ journal_after (Enter (entry_of entry.now)) journal.old }
{
    let journal = journal.as_mut_array().ok_or(Refusal::JournalSize)?;
    let mut p = open_year(journal)?;
    let event = engine(&p, entry)?;
    Ok(add(journal, &mut p, event))
}

// A change, which has no readings: an amendment, the next period, a declaration, a deletion ("strike").
pub fn enter_change(journal: &mut [u8], c: Change) -> Answer
    ensures answer { result ≡ answer (Enter (EnterChange c)) journal.old }
    ensures outcome { outcome_of result ≡ outcome (Enter (EnterChange c)) journal.old }
    ensures journal_after { journal.new ≡ journal_after (Enter (EnterChange c)) journal.old }
{
    let journal = journal.as_mut_array().ok_or(Refusal::JournalSize)?;
    check_standards(c)?;
    let mut p = open_year(journal)?;
    let event = change(&p, c)?;
    Ok(add(journal, &mut p, event))
}
