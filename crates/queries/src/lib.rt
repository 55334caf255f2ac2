// The public calls that only read the journal: status, and the marks and the report written into a lent output. None has a precondition, on its arguments or on lent
// buffers. Each contract gives the whole answer (its value, and its refusal number and figures as in the specification, `outcome` and `output_outcome`) and every byte
// of each buffer that the call may write, refused or not. The result of `marks` and of `report` keeps its output lent, so their contracts give the bytes of that
// result, and by `LenderFinds` every byte behind it.
#![tactic(auto)]

ghost use Rattle.std.specs.Prelude.{◌≡◌, length, drop};
ghost use Rattle.std.specs.Borrow.{sem};
ghost use Rattle.front_part.specs.Lender.{LenderFinds};
ghost use Rattle.reference.specs.Call.{Marks, Report, ReadStatus, Write, Ask};
ghost use Rattle.reference.specs.Answers.{refusal_on, answer, outcome_of, outcome, out_after, out_part, output_answer, output_outcome_of, output_outcome};

use columns::LINE_SIZE;
use cumsum::RESOLUTION;
use printing::print_marks;
use reference::{Answer, OutputAnswer, OutputOutcome};
use refusals::{check_marks, check_report, check_status};
use report_printing::print_report;
use report_scan::Rows;
use verdicts::status::status_of;

// Status.
pub fn read_status(journal: &[u8]) -> Answer
    ensures answer { result ≡ answer (Ask ReadStatus) journal.now }
    ensures outcome { outcome_of result ≡ outcome (Ask ReadStatus) journal.now }
{
    let p = check_status(journal)?;
    Ok(status_of(&p))
}

// Marks, at the front of the output: how many bytes they take.
pub fn write_marks(journal: &[u8], out: &mut [u8]) -> OutputAnswer
    ensures answer { result ≡ output_answer Marks journal.now out.old }
    ensures outcome { output_outcome_of result ≡ output_outcome Marks journal.now out.old }
    ensures out_after { out.new ≡ out_after Marks journal.now out.old }
{
    let p = check_marks(journal, out.len())?;
    print_marks(&p.engines, RESOLUTION, out);
    Ok(2 * p.engines.len())
}

// The wall page, at the front of the output: how many bytes it takes (document 02, W-205).
pub fn write_report(journal: &[u8], out: &mut [u8]) -> OutputAnswer
    ensures answer { result ≡ output_answer Report journal.now out.old }
    ensures outcome { output_outcome_of result ≡ output_outcome Report journal.now out.old }
    ensures out_after { out.new ≡ out_after Report journal.now out.old }
{
    let mut rows = Rows::new();
    let p = check_report(journal, out.len(), &mut rows)?;
    print_report(&p, rows.as_slice(), out);
    Ok(LINE_SIZE * (p.engines.len() + 1))
}

// An answer's refusal, through a lent byte; the result is where the written part ends.
fn tell(answer: OutputAnswer, refusal: &mut u8) -> usize
    ensures { record { refusal = refusal.new; length = result } ≡ output_outcome_of answer }
{
    let outcome = OutputOutcome::from(answer);
    *refusal = outcome.refusal;
    outcome.length
}

// `write_marks` and `write_report` so told.
fn marks_front(journal: &[u8], out: &mut [u8], refusal: &mut u8) -> usize
    ensures answer { record { refusal = refusal.new; length = result } ≡ output_outcome Marks journal.now out.old }
    ensures out_after { out.new ≡ out_after Marks journal.now out.old }
{
    tell(write_marks(journal, out), refusal)
}

fn report_front(journal: &[u8], out: &mut [u8], refusal: &mut u8) -> usize
    ensures answer { record { refusal = refusal.new; length = result } ≡ output_outcome Report journal.now out.old }
    ensures out_after { out.new ≡ out_after Report journal.now out.old }
{
    tell(write_report(journal, out), refusal)
}

// Marks, handing back just the written part of the output, an empty part if the call is refused. The contract gives the part's bytes, where the part starts,
// that the lender of the output finds exactly the definition's bytes behind the part when the borrow ends, and the refusal.
pub fn marks<'a>(journal: &[u8], out: &'a mut [u8], refusal: &mut u8) -> &'a mut [u8]
    ensures part { result.now ≡ out_part Marks journal.now out.old }
    ensures same_start { result.ref_ptr ≡ out.entry.ref_ptr }
    ensures* lender_finds { sem 𝓛 (LenderFinds out.entry result (drop (length result.now) (out_after Marks journal.now out.old))) }
    ensures refusal_after { refusal.new ≡ refusal_on (Ask (Write Marks (length out.old))) journal.now }
{
    let end = marks_front(journal, out, refusal);
    &mut out[..end]
}

// The wall page, handed back in the same way.
pub fn report<'a>(journal: &[u8], out: &'a mut [u8], refusal: &mut u8) -> &'a mut [u8]
    ensures part { result.now ≡ out_part Report journal.now out.old }
    ensures same_start { result.ref_ptr ≡ out.entry.ref_ptr }
    ensures* lender_finds { sem 𝓛 (LenderFinds out.entry result (drop (length result.now) (out_after Report journal.now out.old))) }
    ensures refusal_after { refusal.new ≡ refusal_on (Ask (Write Report (length out.old))) journal.now }
{
    let end = report_front(journal, out, refusal);
    &mut out[..end]
}
