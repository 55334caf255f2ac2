// n, S, Q and V of one pollutant's results, engine by engine.
ghost use Rattle.std.specs.Prelude.{◌≡◌, List, [], ◌∷◌, ℕ};
ghost use Rattle.statistics.specs.declared.Test.{Test};
ghost use Rattle.spread.specs.Sums.{sums};
ghost use Rattle.spread.specs.Ranges.{SumsInRange};

use crate::Sums;

// The sums with no engine.
impl Default for Sums {
    ghost is_default = { λ s. s ≡ sums [] };

    #[tactic(auto, unfolding(statistics::specs::Spread::variation))]
    fn default() -> Sums {
        Sums {
            n: 0,
            total: 0,
            squares: 0,
            variation: 0,
        }
    }
}

impl Sums {
    // The sums with one more engine, whatever history they are of and whatever the new engine's standard is.
    #[tactic(auto, using(crate::proofs::OneMore::sums_room, crate::proofs::OneMore::sums_next))]
    pub fn with(self, new_result: u32) -> Sums
        requires { SumsInRange self new_result }
        ensures { (h : List Test) (t : ℕ) → self ≡ sums h → result ≡ sums (record { result = new_result; standard = t } ∷ h) }
    {
        let x = u64::from(new_result);
        let n = self.n + 1;
        let total = self.total + x;
        let squares = self.squares + x * x;
        Sums {
            n,
            total,
            squares,
            variation: n * squares - total * total,
        }
    }
}
