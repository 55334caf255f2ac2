// From a letter and its numbers to what a line asks for: the second step of parsing, which sees neither the line nor a journal.
#![tactic(auto)]

ghost use Rattle.std.specs.Prelude.{◌≡◌, ◌%◌, cond, eqb, length};
ghost use Rattle.protocol.specs.KeyLine.{asked, setup_from, number_from, readings_from, call_of};
ghost use Rattle.reference.specs.Call.{EnterEngine};
ghost use Rattle.parser.specs.Request.{engine_in, command_for};

use reference::{Change, EngineEntry, Refusal};
use year::{Pair, Setup};

// The call that a line asks for.
#[derive(Clone, Copy)]
pub enum CallRequest<'a> {
    SetUp(Setup),
    Engine(EngineEntry<'a>),
    Preview(EngineEntry<'a>),
    Change(Change),
    WriteMarks,
}

// "S: P, D, two standards, HC+NOx kind and factor, CO kind and factor."
fn setup_from(values: &[u32]) -> Result<Setup, Refusal>
    ensures { result ≡ cond (eqb (length values.now) 8) (Ok (setup_from values.now)) (Err Refusal.LineForm) }
{
    <[u32; 8]>::try_from(values)
        .map(Setup::from)
        .map_err(|_| Refusal::LineForm)
}

// "E: engine number, its HC+NOx readings, as many CO readings. An odd count of readings is refused by 2"; the call judges how many there are. T takes the same numbers.
fn engine_from(values: &[u32]) -> Result<EngineEntry<'_>, Refusal>
    ensures { engine_in result ≡ cond (eqb (length values.now % 2) 1) (Ok (EnterEngine (number_from values.now) (readings_from values.now))) (Err Refusal.LineForm) }
{
    match values {
        &[number, ref readings @ ..] if readings.len() % 2 == 0 => {
            let (hcnox, co) = readings.split_at(readings.len() / 2);
            Ok(EngineEntry {
                number,
                readings: Pair { hcnox, co },
            })
        }
        _ => Err(Refusal::LineForm),
    }
}

// What a letter and its numbers ask for.
#[tactic(auto, unfolding(protocol::specs::KeyLine::call_of))]
pub fn requested<'a>(letter: u8, values: &'a [u32]) -> Result<CallRequest<'a>, Refusal>
    ensures { command_for result ≡ asked (call_of letter values.now) }
{
    let call = match (letter, values) {
        (b'S', _) => CallRequest::SetUp(setup_from(values)?),
        (b'E', _) => CallRequest::Engine(engine_from(values)?),
        (b'T', _) => CallRequest::Preview(engine_from(values)?),
        (b'A', &[hcnox, co]) => CallRequest::Change(Change::Amend(Pair { hcnox, co })),
        (b'P', []) => CallRequest::Change(Change::BeginPeriod),
        (b'X', []) => CallRequest::Change(Change::Declare),
        (b'Z', []) => CallRequest::Change(Change::Delete),
        (b'L', []) => CallRequest::WriteMarks,
        _ => return Err(Refusal::LineForm),
    };
    Ok(call)
}
