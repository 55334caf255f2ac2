// The status.
ghost use Rattle.std.specs.Prelude.{◌≡◌};
ghost use Rattle.year.specs.Status.{status};

use crate::verdict::verdict;
use engines::summary::figures_of;
use progress::Progress;
use year::Status;

// The calculator's status, at resolution 1,024.
pub fn status_of(p: &Progress) -> Status
    ensures { result ≡ status 1024 p.now }
{
    Status {
        n: p.engines.len() as u32,
        verdict: u8::from(verdict(p)),
        figures: p.figures.map(figures_of),
    }
}
