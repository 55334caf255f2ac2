// The figures of one pollutant as status shows them, and its stop test.
ghost use Rattle.std.specs.Prelude.{◌≡◌, List, ℕ};
ghost use Rattle.statistics.specs.declared.Test.{Test};
ghost use Rattle.statistics.specs.SampleSize.{sample_size_of, size_reached_of};
ghost use Rattle.year.specs.Status.{figures};
ghost use Rattle.figures.specs.Running.{running, Worked};

use figures::Running;
use sample_size::{sample_size_of, size_reached};
use year::Figures;

// N of one pollutant. Before engine 2 there is none, which `sample_size_of` sees to, so there is no test here.
#[tactic(auto, using(crate::proofs::Shown::size_shown))]
pub fn size_of(f: Running) -> Option<u64>
    requires { Worked f }
    ensures { (k : ℕ) (h : List Test) → f ≡ running k h → result ≡ sample_size_of h }
{
    sample_size_of(f.sums, f.standard)
}

// The figures of a status, with this N. Before engine 2 they are 0, except S.
#[tactic(auto, using(crate::proofs::Shown::shown))]
pub fn with_size(f: Running, size: Option<u64>) -> Figures
    ensures { (k : ℕ) (h : List Test) → f ≡ running k h → result ≡ figures k size h }
{
    Figures {
        sum: f.sums.total,
        deviation: f.deviation,
        cumsum: f.cumsum,
        limit: f.limit,
        size,
        mark: f.mark,
    }
}

// The figures with the N that is computed from them.
pub fn figures_of(f: Running) -> Figures
    requires { Worked f }
    ensures { (k : ℕ) (h : List Test) → f ≡ running k h → result ≡ figures k (sample_size_of h) h }
{
    with_size(f, size_of(f))
}

// The stop test of one pollutant.
#[tactic(auto, using(crate::proofs::Shown::size_was_reached))]
pub fn reached(f: Running) -> bool
    requires { Worked f }
    ensures { (k : ℕ) (h : List Test) → f ≡ running k h → result ≡ size_reached_of h }
{
    size_reached(f.sums, f.standard)
}
