// A year, line by line. An event that could not be entered leaves it unchanged.
ghost use Rattle.std.specs.Prelude.{◌≡◌, true};
ghost use Rattle.year.specs.Setup.{setup_in_range};

use crate::line::Line;
use admission::is_admissible;
use engines::rework::rework;
use engines::summary::figures_of;
use progress::Progress;
use schedule::setup_in_range;
use std::io;
use test_lines::input::words;
use test_lines::numbers::numbers;
use test_lines::shown::Shown;
use verdicts::status::status_of;
use year::{Event, Setup};

// The year before the first setup of the input.
pub fn first_year() -> Progress
    ensures { setup_in_range result.setup ≡ true }
{
    Progress::start(Setup::from([1, 1, 10, 10, 0, 0, 0, 0]))
}

fn enter(year: &mut Progress, event: Event)
    requires { setup_in_range year.old.setup ≡ true }
    ensures { setup_in_range year.new.setup ≡ true }
{
    if is_admissible(year, event) {
        year.enter(event);
    }
}

// Prints how many events were entered, the status at 1,024, and the figures of both pollutants recomputed at `resolution`, or at 8,192 if that is less.
fn print_year<P: Print>(rt: &P, year: &Progress, resolution: u32) -> io::Result<()> {
    let again = rework(&year.engines, u64::from(resolution).min(8192)).map(figures_of);
    println!(rt;
        "{} {} {} {}",
        year.stored,
        Shown(status_of(year)),
        Shown(again.hcnox),
        Shown(again.co)
    )
}

// A year begins, if its setup is in range.
fn begin<P: Print>(rt: &P, year: &mut Progress, setup: Setup) -> io::Result<()>
    requires { setup_in_range year.old.setup ≡ true }
    ensures { setup_in_range year.new.setup ≡ true }
{
    if !setup_in_range(setup) {
        return println!(rt; "no year");
    }
    *year = Progress::start(setup);
    Ok(())
}

// Does what a line asks for, on the year that the last setup began. The letter T precedes words, which are printed.
pub fn obey<P: Print>(rt: &P, year: &mut Progress, line: &[u8]) -> io::Result<()>
    requires { setup_in_range year.old.setup ≡ true }
    ensures { setup_in_range year.new.setup ≡ true }
{
    let Some(&letter) = line.first() else {
        return Ok(());
    };
    if letter == b'T' {
        return rt.write_all(words(line));
    }
    match Line::parse(letter, &numbers(line)) {
        Line::End => println!(rt; ""),
        Line::Number(number) => print!(rt; " {number}"),
        Line::Begin(setup) => begin(rt, year, setup),
        Line::Enter(event) => {
            enter(year, event);
            Ok(())
        }
        Line::Figures(resolution) => print_year(rt, year, resolution),
        Line::Nothing => Ok(()),
    }
}
