// Damaging a journal.
ghost use Rattle.std.specs.Prelude.{◌≤◌, ◌<◌};

use crate::tally::Tally;
use journal::{COUNT_PLACE, HEADER_SIZE, JOURNAL_SIZE, SLOT_SIZE, SLOTS};
use scan::scan_journal;
use test_lines::ROOM;
use year::MOST_EVENTS;

pub fn accepts(journal: &[u8]) -> bool {
    scan_journal(journal).is_some()
}

// Buffers of 544 equal bytes.
pub fn filled() -> Tally {
    (0..=u8::MAX).fold(Tally::new(), |tally, value| {
        tally.with(accepts(&[value; JOURNAL_SIZE]))
    })
}

// A journal, with sixteen zeros behind it so that longer buffers can be tried. Each public function leaves it as it was.
#[derive(Drop)]
pub struct Sample {
    buffer: [u8; ROOM],
}

impl Sample {
    pub fn new(journal: &[u8; JOURNAL_SIZE]) -> Sample {
        let mut buffer = [0; ROOM];
        buffer[..JOURNAL_SIZE].copy_from_slice(journal);
        Sample { buffer }
    }

    // Whether the first n bytes are accepted; no more than there are.
    fn accepts(&self, n: usize) -> bool {
        self.buffer.get(..n).is_some_and(accepts)
    }

    // One byte changed to each other value below `end`, from the next one up, wrapping round to the one below.
    fn values(&mut self, at: usize, end: u32, tally: Tally) -> Tally
        requires inside { at < ROOM }
        requires byte_value { end ≤ 256 }
    {
        let kept = self.buffer[at];
        let tally = (1..end).fold(tally, |tally, v| {
            self.buffer[at] = ((u32::from(kept) + v) % end) as u8;
            tally.with(self.accepts(JOURNAL_SIZE))
        });
        self.buffer[at] = kept;
        tally
    }

    // Every byte changed to every other value.
    pub fn bytes(&mut self) -> Tally {
        (0..JOURNAL_SIZE).fold(
            Tally::new(),
            |tally, at|
                requires { at < 544 }
            { self.values(at, 256, tally) },
        )
    }

    // Every length except a journal's.
    pub fn lengths(&self) -> Tally {
        (0..=ROOM)
            .filter(|n| *n != JOURNAL_SIZE)
            .fold(Tally::new(), |tally, n| tally.with(self.accepts(n)))
    }

    // Exchanges a slot with the next one.
    fn exchange(&mut self, slot: usize)
        requires { slot < 63 }
    {
        let (slots, _) = self.buffer[HEADER_SIZE..].as_chunks_mut::<SLOT_SIZE>();
        slots.swap(slot, slot + 1);
    }

    // Adjacent slots exchanged, and every other number of events.
    pub fn slots(&mut self) -> Tally {
        let tally = (0..SLOTS - 1).fold(
            Tally::new(),
            |tally, slot|
                requires { slot < 63 }
            {
                self.exchange(slot);
                let accepted = self.accepts(JOURNAL_SIZE);
                self.exchange(slot);
                tally.with(accepted)
            },
        );
        self.values(COUNT_PLACE, MOST_EVENTS + 1, tally)
    }
}
