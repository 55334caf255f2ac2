// The model year of one engine family: what was set up, what was entered, and the figures of a status.
#![tactic(auto)]

ghost use Rattle.std.specs.Prelude.{◌≡◌, Bool, ◌&&◌, ◌||◌};
ghost use Rattle.year.specs.Setup.{setup_of};
ghost use Rattle.year.specs.Verdict.{passes};

use cumsum::{Interval, Mark};
use rounding::Factor;
use statistics::{Deviation, Test};

// "At most 40 engines"; "number of events, 0 to 64".
pub const MOST_ENGINES: usize = 40;

pub const MOST_EVENTS: u32 = 64;

// Two for each engine.
pub const MOST_MARKS: usize = 80;

// A value for each pollutant: results or standards, in result units, factors, figures.
#[derive(Clone, Copy, Default)]
pub struct Pair<T> {
    pub hcnox: T,
    pub co: T,
}

impl<T> Pair<T> {
    // What a function makes of each pollutant's value.
    pub fn map<U, F: Fn(T) -> U>(self, f: F) -> Pair<U>
        requires hcnox { F.pre f self.hcnox }
        requires co { F.pre f self.co }
        ensures hcnox { F.post f self.hcnox result.hcnox }
        ensures co { F.post f self.co result.co }
    {
        Pair {
            hcnox: f(self.hcnox),
            co: f(self.co),
        }
    }

    // Each pollutant's value beside its value in another pair.
    pub fn zip<U>(self, other: Pair<U>) -> Pair<(T, U)>
        ensures { result ≡ record { hcnox = (self.hcnox, other.hcnox); co = (self.co, other.co) } }
    {
        Pair {
            hcnox: (self.hcnox, other.hcnox),
            co: (self.co, other.co),
        }
    }

    // Whether both pollutants pass a test.
    pub fn both<F: Fn(T) -> bool>(self, test: F) -> bool
        requires hcnox { F.pre test self.hcnox }
        requires co { F.pre test self.co }
        ensures { (h o : Bool) × F.post test self.hcnox h × F.post test self.co o × (result ≡ (h && o)) }
    {
        test(self.hcnox) & test(self.co)
    }

    // Whether a pollutant passes a test.
    pub fn either<F: Fn(T) -> bool>(self, test: F) -> bool
        requires hcnox { F.pre test self.hcnox }
        requires co { F.pre test self.co }
        ensures { (h o : Bool) × F.post test self.hcnox h × F.post test self.co o × (result ≡ (h || o)) }
    {
        test(self.hcnox) | test(self.co)
    }
}

// Projected volume P, production days D, the first standards, the factors. Any values; `setup_in_range` says whether they are in range.
#[derive(Clone, Copy)]
pub struct Setup {
    pub volume: u32,
    pub days: u32,
    pub standards: Pair<u32>,
    pub factors: Pair<Factor>,
}

// From P, D, the two standards, and the kind and value of each factor.
impl From<[u32; 8]> for Setup {
    ghost from_gives = { λ numbers setup. setup ≡ setup_of numbers };

    fn from(numbers: [u32; 8]) -> Setup {
        let [
            volume,
            days,
            hcnox,
            co,
            hcnox_kind,
            hcnox_value,
            co_kind,
            co_value,
        ] = numbers;
        Setup {
            volume,
            days,
            standards: Pair { hcnox, co },
            factors: Pair {
                hcnox: Factor {
                    kind: hcnox_kind,
                    value: hcnox_value,
                },
                co: Factor {
                    kind: co_kind,
                    value: co_value,
                },
            },
        }
    }
}

// A tested engine: its number and results, "the standard in force when [it] was entered" for each pollutant, and its period. The fields are as narrow as their
// ranges allow, since a year holds forty of them.
#[derive(Clone, Copy, Default)]
pub struct Tested {
    pub number: u16,
    pub results: Pair<u16>,
    pub standards: Pair<u16>,
    pub period: u8,
}

// An engine with these results, as each pollutant sees it under these standards.
pub fn tests_under(results: Pair<u32>, standards: Pair<u32>) -> Pair<Test>
    ensures hcnox { result.hcnox ≡ record { result = results.hcnox; standard = standards.hcnox } }
    ensures co { result.co ≡ record { result = results.co; standard = standards.co } }
{
    results.zip(standards).map(|(x, t)| Test {
        result: x,
        standard: t,
    })
}

impl Tested {
    // The engine as each pollutant sees it.
    pub fn tests(self) -> Pair<Test>
        ensures hcnox { result.hcnox ≡ record { result = self.results.hcnox; standard = self.standards.hcnox } }
        ensures co { result.co ≡ record { result = self.results.co; standard = self.standards.co } }
    {
        tests_under(self.results.map(u32::from), self.standards.map(u32::from))
    }

    // Whether both results are at or below the standards that were in force when it was entered.
    pub fn passes(&self) -> bool
        ensures { result ≡ passes self.now }
    {
        self.results.zip(self.standards).both(|(x, t)| x <= t)
    }
}

// What is stored for an accepted entry. `readings` is the number of readings for each pollutant. A deletion ("strike" in document 02, W-201) removes the newest
// engine.
#[derive(Clone, Copy)]
pub enum Event {
    Engine {
        number: u32,
        readings: u32,
        results: Pair<u32>,
    },
    Amendment(Pair<u32>),
    NextPeriod,
    Declaration,
    Deletion,
}

// One pollutant of a status: S, s and e, both C, both H, N in tenths, and the newest mark.
#[derive(Clone, Copy, Default)]
pub struct Figures {
    pub sum: u64,
    pub deviation: Deviation,
    pub cumsum: Interval,
    pub limit: Interval,
    pub size: Option<u64>,
    pub mark: Mark,
}

#[derive(Clone, Copy, Default)]
pub struct Status {
    pub n: u32,
    pub verdict: u8,
    pub figures: Pair<Figures>,
}
