// How many buffers were tried, how many were accepted, and a digest of which.
use std::fmt;
use test_lines::digested;

#[derive(Clone, Copy)]
pub struct Tally {
    tried: u64,
    accepted: u64,
    digest: u64,
}

impl Tally {
    pub fn new() -> Tally {
        Tally {
            tried: 0,
            accepted: 0,
            digest: 1,
        }
    }

    // With one more buffer. If it is accepted, its number goes into the digest. (No count comes near the largest; it stops there, so that none wraps.)
    pub fn with(self, accepted: bool) -> Tally {
        let tried = self.tried.saturating_add(1);
        let number = if accepted { tried } else { 0 };
        Tally {
            tried,
            accepted: self.accepted.saturating_add(u64::from(accepted)),
            digest: digested(self.digest, number),
        }
    }
}

impl fmt::Display for Tally {
    fn fmt<W: fmt::Write>(&self, f: &mut fmt::Formatter<W>) -> fmt::Result {
        let Tally {
            tried,
            accepted,
            digest,
        } = *self;
        write!(f, " tried {tried} accepted {accepted} digest {digest}")
    }
}
