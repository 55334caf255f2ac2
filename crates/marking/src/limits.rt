// The intervals of the action limit H and of CumSum C.
ghost use Rattle.std.specs.Prelude.{◌≡◌, ◌+◌, ◌≤◌, ◌<◌};
ghost use Rattle.cumsum.specs.Intervals.{next, next_cumsum, limit_of};
ghost use Rattle.marking.specs.Ranges.{NextInRange};

use cumsum::Interval;
use statistics::{Deviation, Test};

// H: 20 × s to 20 × (s + e).
pub fn action_limit(d: Deviation) -> Interval
    requires { (d.floor < 4294967296) × (d.inexact ≤ 1) }
    ensures { result ≡ limit_of d }
{
    Interval {
        low: 20 * d.floor,
        high: 20 * (d.floor + d.inexact),
    }
}

// One end of C with one more engine: max(0, previous + 4k × (X − T) − w).
fn next_sum(previous: u64, resolution: u64, x: Test, w: u64) -> u64
    requires { NextInRange previous resolution w }
    ensures { result ≡ next resolution x w previous }
{
    let up = previous + 4 * resolution * u64::from(x.result);
    let down = 4 * resolution * u64::from(x.standard) + w;
    up.saturating_sub(down)
}

// C with one more engine: s + e is subtracted at the low end, s at the high end.
pub fn next_cumsum(previous: Interval, resolution: u64, x: Test, d: Deviation) -> Interval
    requires { NextInRange previous.low resolution (d.floor + d.inexact) × NextInRange previous.high resolution d.floor }
    ensures { result ≡ next_cumsum resolution x d previous }
{
    Interval {
        low: next_sum(previous.low, resolution, x, d.floor + d.inexact),
        high: next_sum(previous.high, resolution, x, d.floor),
    }
}
