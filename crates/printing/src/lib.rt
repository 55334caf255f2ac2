// The marks of a year's tested engines as bytes, and written into a lent buffer.
#![tactic(auto)]

ghost use Rattle.std.specs.Prelude.{◌≡◌, map, ◌*◌, ◌≤◌, length, reverse};
ghost use Rattle.arrayvec.specs.ArrayVec.{array_vec_len};
ghost use Rattle.buffers.specs.Bytes.{put};
ghost use Rattle.statistics.specs.Ranges.{HistoryInRange};
ghost use Rattle.cumsum.specs.Marks.{mark_byte};
ghost use Rattle.year.specs.Setup.{Pollutant, judged};
ghost use Rattle.year.specs.Replay.{history};
ghost use Rattle.year.specs.Status.{printed_marks};
ghost use Rattle.engines.specs.Engines.{tested, EnginesInRange};

use arrayvec::ArrayVec;
use buffers::front::put_front;
use engines::Engines;
use engines::rework::add_tests;
use year::{MOST_MARKS, Pair, Tested};

// The marks of engines in order of entry, HC+NOx then CO, at any resolution.
#[tactic(auto, using(crate::proofs::Marked::engines_few))]
fn marks_of(engines: &[Tested], resolution: u64) -> ArrayVec<u8, MOST_MARKS>
    requires histories { (q : Pollutant) → HistoryInRange 40 (history q (reverse engines.now)) }
    requires fine { resolution ≤ 8192 }
    ensures { result.items ≡ map mark_byte (printed_marks judged resolution (reverse engines.now)) }
{
    let mut marks = ArrayVec::new();
    let mut figures = Pair::default();
    for x in engines {
        add_tests(&mut figures, x.tests(), resolution);
        marks.push(u8::from(figures.hcnox.mark));
        marks.push(u8::from(figures.co.mark));
    }
    marks
}

// Writes the marks of all engines at the front of a lent buffer. The rest of the buffer is unchanged.
#[tactic(auto, using(crate::proofs::Marked::bytes_length))]
pub fn print_marks(engines: &Engines, resolution: u64, out: &mut [u8])
    requires { EnginesInRange engines.now resolution × (2 * array_vec_len engines.now ≤ length out.old) }
    ensures { out.new ≡ put out.old 0 (map mark_byte (printed_marks judged resolution (tested engines.now))) }
{
    put_front(out, marks_of(engines.as_slice(), resolution).as_slice());
}
