// How figures are printed: numbers with a space between them.
use cumsum::Mark;
use std::fmt;
use year::{Figures, Pair, Status};

// A value as the test programs print it.
#[derive(Clone, Copy)]
pub struct Shown<T>(pub T);

impl fmt::Display for Shown<Mark> {
    fn fmt<W: fmt::Write>(&self, f: &mut fmt::Formatter<W>) -> fmt::Result {
        write!(f, "{}", char::from(u8::from(self.0)))
    }
}

// A sample size in tenths, if there is one.
impl fmt::Display for Shown<Option<u64>> {
    fn fmt<W: fmt::Write>(&self, f: &mut fmt::Formatter<W>) -> fmt::Result {
        match self.0 {
            Some(n) => write!(f, "{n}"),
            None => f.write_str("-"),
        }
    }
}

// S, s, e, both C, both H, N in tenths, mark.
impl fmt::Display for Shown<Figures> {
    fn fmt<W: fmt::Write>(&self, f: &mut fmt::Formatter<W>) -> fmt::Result {
        let Figures {
            sum,
            deviation,
            cumsum,
            limit,
            size,
            mark,
        } = self.0;
        write!(f, "{sum} {} {} ", deviation.floor, deviation.inexact)?;
        write!(f, "{} {} ", cumsum.low, cumsum.high)?;
        write!(f, "{} {} ", limit.low, limit.high)?;
        write!(f, "{} {}", Shown(size), Shown(mark))
    }
}

// n, verdict, and the figures of HC+NOx and of CO.
impl fmt::Display for Shown<Status> {
    fn fmt<W: fmt::Write>(&self, f: &mut fmt::Formatter<W>) -> fmt::Result {
        let Status {
            n,
            verdict,
            figures: Pair { hcnox, co },
        } = self.0;
        write!(f, "{n} {verdict} {} {}", Shown(hcnox), Shown(co))
    }
}
