// Production-line testing for programs in other languages: the key line, an engine's entry and its preview, status, the marks and the wall page, on a lent journal.
// include/plt.h has the same functions for C. A slice is a pointer and a length. There is no precondition on what is lent, and the contracts give every byte and number of it.
#![tactic(auto)]

ghost use Rattle.std.specs.Prelude.{◌≡◌, ◌<◌};
ghost use Rattle.reference.specs.Call.{engine_entry, engine_preview, entry_of, preview_of, Marks, Report, ReadStatus, Enter, Ask};
ghost use Rattle.reference.specs.Answers.{out_after, output_outcome_of, output_outcome};
ghost use Rattle.exports.specs.Exports.{reply_count, reply_left, line_left, refusal_given, figures_left, journal_left};

use answers::put_answer;
use buffers::front::put_front;
use commands::reply;
use entries::{enter_engine, preview_engine};
use exports::FIGURE_COUNT;
use protocol::REPLY_SIZE;
use queries::{read_status, write_marks, write_report};
use reference::{EngineEntry, OutputAnswer, OutputOutcome};
use text::Text;
use year::Pair;

// No refusal: what a call returns that has no room for its figures.
const TOO_FEW_FIGURES: u8 = 255;

// A key line without its newline: puts its reply at the front of the output and returns its length. With under 96 bytes of output, does nothing and returns 0.
#[tactic(auto, unfolding(exports::specs::Exports::reply_count, exports::specs::Exports::reply_left, exports::specs::Exports::line_left))]
#[unsafe(no_mangle)]
pub extern "C" fn plt_command(journal: &mut [u8], line: &[u8], out: &mut [u8]) -> usize
    ensures count { result ≡ reply_count line.now journal.old out.old }
    ensures out_after { out.new ≡ reply_left line.now journal.old out.old }
    ensures journal_after { journal.new ≡ line_left line.now journal.old out.old }
    ensures within { result < 96 }
{
    if out.len() < REPLY_SIZE {
        return 0;
    }
    let mut text = Text::new();
    reply(journal, line, &mut text);
    let bytes = text.as_bytes();
    put_front(out, bytes);
    bytes.len()
}

// An engine as the calls take it.
fn engine_of<'a>(number: u32, hcnox: &'a [u32], co: &'a [u32]) -> EngineEntry<'a>
    ensures entry { entry_of result ≡ engine_entry number hcnox.now co.now }
    ensures preview { preview_of result ≡ engine_preview number hcnox.now co.now }
{
    EngineEntry {
        number,
        readings: Pair { hcnox, co },
    }
}

// An engine with its number and its readings for each pollutant: returns the refusal, 0 for none, and writes the figures of the year with it. With
// room for under twenty figures, does nothing and returns 255.
#[tactic(auto, unfolding(exports::specs::Exports::refusal_given, exports::specs::Exports::figures_left, exports::specs::Exports::journal_left))]
#[unsafe(no_mangle)]
pub extern "C" fn plt_engine(
    journal: &mut [u8],
    number: u32,
    hcnox: &[u32],
    co: &[u32],
    figures: &mut [u64],
) -> u8
    ensures refusal { result ≡ refusal_given (Enter (engine_entry number hcnox.now co.now)) journal.old figures.old }
    ensures figures_after { figures.new ≡ figures_left (Enter (engine_entry number hcnox.now co.now)) journal.old figures.old }
    ensures journal_after { journal.new ≡ journal_left (Enter (engine_entry number hcnox.now co.now)) journal.old figures.old }
{
    if figures.len() < FIGURE_COUNT {
        return TOO_FEW_FIGURES;
    }
    let engine = engine_of(number, hcnox, co);
    put_answer(figures, enter_engine(journal, &engine))
}

// The preview of an engine: returns what `plt_engine` would on the same journal, and writes the figures that it would; the journal is only read. With room for
// under twenty figures, does nothing and returns 255.
#[tactic(auto, unfolding(exports::specs::Exports::refusal_given, exports::specs::Exports::figures_left, exports::specs::Exports::journal_left))]
#[unsafe(no_mangle)]
pub extern "C" fn plt_ask(
    journal: &[u8],
    number: u32,
    hcnox: &[u32],
    co: &[u32],
    figures: &mut [u64],
) -> u8
    ensures refusal { result ≡ refusal_given (Ask (engine_preview number hcnox.now co.now)) journal.now figures.old }
    ensures figures_after { figures.new ≡ figures_left (Ask (engine_preview number hcnox.now co.now)) journal.now figures.old }
{
    if figures.len() < FIGURE_COUNT {
        return TOO_FEW_FIGURES;
    }
    let engine = engine_of(number, hcnox, co);
    put_answer(figures, preview_engine(journal, &engine))
}

// Status: returns the refusal, 0 for none, and writes the figures. With room for under twenty figures, does nothing and returns 255.
#[tactic(auto, unfolding(exports::specs::Exports::refusal_given, exports::specs::Exports::figures_left, exports::specs::Exports::journal_left))]
#[unsafe(no_mangle)]
pub extern "C" fn plt_status(journal: &[u8], figures: &mut [u64]) -> u8
    ensures refusal { result ≡ refusal_given (Ask ReadStatus) journal.now figures.old }
    ensures figures_after { figures.new ≡ figures_left (Ask ReadStatus) journal.now figures.old }
{
    if figures.len() < FIGURE_COUNT {
        return TOO_FEW_FIGURES;
    }
    put_answer(figures, read_status(journal))
}

// What a call that writes an output answered: returns its refusal, 0 for none, and writes into `written` how many bytes it wrote.
fn tell(answer: OutputAnswer, written: &mut usize) -> u8
    ensures { record { refusal = result; length = written.new } ≡ output_outcome_of answer }
{
    let outcome = OutputOutcome::from(answer);
    *written = outcome.length;
    outcome.refusal
}

// Marks: returns the refusal, 0 for none, and writes the marks at the front of the output, and into `written` how many bytes they are.
#[unsafe(no_mangle)]
pub extern "C" fn plt_marks(journal: &[u8], out: &mut [u8], written: &mut usize) -> u8
    ensures refusal { result ≡ (output_outcome Marks journal.now out.old).refusal }
    ensures out_after { out.new ≡ out_after Marks journal.now out.old }
    ensures written_after { written.new ≡ (output_outcome Marks journal.now out.old).length }
{
    tell(write_marks(journal, out), written)
}

// The wall page, in the same way.
#[unsafe(no_mangle)]
pub extern "C" fn plt_report(journal: &[u8], out: &mut [u8], written: &mut usize) -> u8
    ensures refusal { result ≡ (output_outcome Report journal.now out.old).refusal }
    ensures out_after { out.new ≡ out_after Report journal.now out.old }
    ensures written_after { written.new ≡ (output_outcome Report journal.now out.old).length }
{
    tell(write_report(journal, out), written)
}
