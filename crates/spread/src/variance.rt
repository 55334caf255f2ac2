// The sample standard deviation.
ghost use Rattle.std.specs.Prelude.{◌≡◌};
ghost use Rattle.statistics.specs.Spread.{deviation};
ghost use Rattle.spread.specs.Ranges.{DeviationInRange};

use crate::Sums;
use crate::squareroot::root;
use statistics::Deviation;

impl Sums {
    // The deviation of these engines' results at a resolution.
    #[tactic(auto, using(crate::proofs::Room::root_fits, crate::proofs::Room::product_fits, crate::proofs::Room::exact, crate::proofs::Room::inexact))]
    pub fn deviation(self, resolution: u64) -> Deviation
        requires { DeviationInRange resolution self.n self.variation }
        ensures { result ≡ deviation resolution self.n self.variation }
    {
        let d = self.n * (self.n - 1);
        let a = resolution * resolution * self.variation;
        let floor = root(a / d);
        if floor * floor * d == a {
            return Deviation { floor, inexact: 0 };
        }
        Deviation { floor, inexact: 1 }
    }
}
