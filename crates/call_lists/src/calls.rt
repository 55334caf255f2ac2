// The public calls, and how their answers are printed.
use entries::{enter_change, enter_engine, preview_engine, set_up};
use queries::read_status;
use reference::{Answer, Change, EngineEntry};
use std::io;
use test_lines::shown::Shown;
use year::Setup;

#[derive(Clone, Copy)]
pub enum Call<'a> {
    SetUp(Setup),
    Engine(EngineEntry<'a>),
    Preview(EngineEntry<'a>),
    Change(Change),
    Status,
}

impl Call<'_> {
    pub fn make(self, journal: &mut [u8]) -> Answer {
        match self {
            Call::SetUp(setup) => set_up(journal, setup),
            Call::Engine(engine) => enter_engine(journal, &engine),
            Call::Preview(engine) => preview_engine(journal, &engine),
            Call::Change(change) => enter_change(journal, change),
            Call::Status => read_status(journal),
        }
    }
}

// The refusal, 0 for none, and the status; a refusal has zeros, '-' marks and no N.
pub fn print_answer<P: Print>(rt: &P, answer: Answer) -> io::Result<()> {
    let refusal = answer.err().map_or(0, u8::from);
    print!(rt; "{refusal} {}", Shown(answer.unwrap_or_default()))
}
