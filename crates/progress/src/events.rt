// A setup with no events, and the step that an event makes.
ghost use Rattle.std.specs.Prelude.{◌≡◌};
ghost use Rattle.year.specs.Replay.{start, after};
ghost use Rattle.progress.specs.State.{MayEnter};

use crate::Progress;
use cumsum::RESOLUTION;
use engines::rework::{add_tests, rework};
use engines::store::{add_engine, no_engines, remove_newest};
use year::{Event, Pair, Setup, tests_under};

impl Progress {
    // A setup with no events, in range or not.
    pub fn start(setup: Setup) -> Progress
        ensures { result ≡ start setup }
    {
        Progress {
            setup,
            standards: setup.standards,
            period: 1,
            engines: no_engines(),
            stored: 0,
            declared: false,
            current: 0,
            figures: Pair::default(),
        }
    }

    // An engine: it is added to both pollutants' figures under the standards in force.
    fn enter_engine(&mut self, number: u32, readings: u32, results: Pair<u32>)
        requires { MayEnter (Event.Engine number readings results) self.old }
        ensures { self.new ≡ after (Event.Engine number readings results) self.old }
    {
        add_engine(
            &mut self.engines,
            number,
            results,
            self.standards,
            self.period,
        );
        self.stored += 1;
        self.current += 1;
        add_tests(
            &mut self.figures,
            tests_under(results, self.standards),
            RESOLUTION,
        );
    }

    // A deletion ("strike"): the newest engine goes, and the figures are those of the engines that remain.
    fn enter_deletion(&mut self)
        requires { MayEnter Event.Deletion self.old }
        ensures { self.new ≡ after Event.Deletion self.old }
    {
        remove_newest(&mut self.engines);
        self.stored += 1;
        self.current -= 1;
        let figures = rework(&self.engines, RESOLUTION);
        self.figures = figures;
    }

    // One more event.
    pub fn enter(&mut self, e: Event)
        requires { MayEnter e self.old }
        ensures { self.new ≡ after e self.old }
    {
        match e {
            Event::Engine {
                number,
                readings,
                results,
            } => self.enter_engine(number, readings, results),
            Event::Amendment(standards) => {
                self.standards = standards;
                self.stored += 1;
            }
            Event::NextPeriod => {
                self.period += 1;
                self.current = 0;
                self.stored += 1;
            }
            Event::Declaration => {
                self.declared = true;
                self.stored += 1;
            }
            Event::Deletion => self.enter_deletion(),
        }
    }
}
