// The verdicts by name.
ghost use Rattle.std.specs.Prelude.{◌≡◌};
ghost use Rattle.verdicts.specs.Numbers.{number_of};

// The verdict, with document 01's numbers, 0 to 7.
#[derive(Clone, Copy)]
pub enum Verdict {
    Short,
    Testing,
    SizeReached,
    ThirtyTested,
    PercentTested,
    Undecided,
    Failed,
    Declared,
}

// Its number.
impl From<Verdict> for u8 {
    ghost from_gives = { λ verdict number. number ≡ number_of verdict };

    fn from(verdict: Verdict) -> u8 {
        verdict as u8
    }
}
