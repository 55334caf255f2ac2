// What the public calls take and give back.
#![tactic(auto)]

ghost use Rattle.std.specs.Prelude.{◌≡◌};
ghost use Rattle.reference.specs.Call.{change_event};
ghost use Rattle.reference.specs.Refused.{number_of};
ghost use Rattle.reference.specs.Answers.{output_outcome_of};

use year::{Event, Pair, Status};

// Why a call is refused, in the order of document 01's numbers, 1 to 16; 17 and 18 are of document 02, W-201 and W-205. (1 and 2 are of the key line.)
#[derive(Clone, Copy, Debug, PartialEq, Eq)]
pub enum Refusal {
    LineTooLong = 1,
    LineForm,
    JournalSize,
    ProductionRange,
    StandardRange,
    FactorRange,
    NotAJournal,
    YearClosed,
    EventsFull,
    EngineNumber,
    ReadingCount,
    ReadingRange,
    ResultRange,
    EnginesFull,
    NoNextPeriod,
    MarksSize,
    NothingToDelete,
    ReportSize,
}

// The number by which documents 01 and 02 know it.
impl From<Refusal> for u8 {
    ghost from_gives = { λ refusal number. number ≡ number_of refusal };

    fn from(refusal: Refusal) -> u8 {
        refusal as u8
    }
}

// An accepted setup, entry, preview or status call gives a status; a refused call gives its refusal.
pub type Answer = Result<Status, Refusal>;

// An engine: its number, and its readings for each pollutant.
#[derive(Clone, Copy)]
pub struct EngineEntry<'a> {
    pub number: u32,
    pub readings: Pair<&'a [u32]>,
}

// A change: an entry without readings. `Delete` ("strike" in document 02, W-201) removes the newest engine.
#[derive(Clone, Copy)]
pub enum Change {
    Amend(Pair<u32>),
    BeginPeriod,
    Declare,
    Delete,
}

// The event that a change adds.
impl From<Change> for Event {
    ghost from_gives = { λ change event. event ≡ change_event change };

    fn from(change: Change) -> Event {
        match change {
            Change::Amend(standards) => Event::Amendment(standards),
            Change::BeginPeriod => Event::NextPeriod,
            Change::Declare => Event::Declaration,
            Change::Delete => Event::Deletion,
        }
    }
}

// What a call that writes an output returns besides the bytes: how many it wrote, or its refusal.
pub type OutputAnswer = Result<usize, Refusal>;

// The same in document 01's words: the refusal's number, 0 for none, and how many bytes were written, 0 if the call is refused.
#[derive(Clone, Copy)]
pub struct OutputOutcome {
    pub refusal: u8,
    pub length: usize,
}

impl From<OutputAnswer> for OutputOutcome {
    ghost from_gives = { λ answer given. given ≡ output_outcome_of answer };

    fn from(answer: OutputAnswer) -> OutputOutcome {
        match answer {
            Ok(length) => OutputOutcome { refusal: 0, length },
            Err(refusal) => OutputOutcome {
                refusal: u8::from(refusal),
                length: 0,
            },
        }
    }
}
