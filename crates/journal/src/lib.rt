// The stored journal ("book" in document 01): 544 bytes for each setup and list of events. The definitions are in specs/.
#![tactic(auto)]

ghost use Rattle.std.specs.Prelude.{◌≡◌, ◌≤◌, ◌<◌, ◌+◌, ◌++◌, length};
ghost use Rattle.buffers.specs.Bytes.{bytes16, number16};
ghost use Rattle.journal.specs.Encode.{slot_place};
ghost use Rattle.journal.specs.Read.{slots_in};

use buffers::little_endian::{bytes16, number16};
use year::Pair;

// The number of bytes in a journal.
pub const JOURNAL_SIZE: usize = 544;

// The number of bytes before the first slot.
pub const HEADER_SIZE: usize = 32;

// The number of bytes in a slot.
pub const SLOT_SIZE: usize = 8;

// The number of slots in a journal.
pub const SLOTS: usize = 64;

// Where the version stands, in two bytes, and the number of events, in one.
pub const VERSION_PLACE: usize = 3;

pub const COUNT_PLACE: usize = 24;

// The version that a setup writes, and the one from the first deletion ("strike") on.
pub const FIRST_VERSION: u8 = 1;

pub const DELETION_VERSION: u8 = 2;

// The kind of an event, in byte 0 of its slot, as documents 01 and 02 number it. (As an enum, by TryFrom, it made a scan slower.)
pub mod kind {
    pub const ENGINE: u8 = 1;

    pub const AMENDMENT: u8 = 2;

    pub const NEXT_PERIOD: u8 = 3;

    pub const DECLARATION: u8 = 4;

    pub const DELETION: u8 = 5;
}

// Where slot j starts; for j = 64, where the journal ends.
pub fn slot_place(j: usize) -> usize
    requires { j ≤ 64 }
    ensures { result ≡ slot_place j }
{
    HEADER_SIZE + SLOT_SIZE * j
}

// The slots.
#[tactic(auto, using(crate::proofs::Slots::part_slots))]
pub fn slots_in(journal: &[u8; JOURNAL_SIZE]) -> &[[u8; SLOT_SIZE]]
    ensures slots { result.now ≡ slots_in journal.now }
    ensures count { length result.now ≡ 64 }
{
    journal[HEADER_SIZE..].as_chunks().0
}

// The two numbers of a pair, in the four bytes that start at a place: HC+NOx, then CO.
pub fn pair16(bytes: &[u8], place: usize) -> Pair<u32>
    requires { place + 3 < length bytes.now }
    ensures { result ≡ record { hcnox = number16 bytes.now place; co = number16 bytes.now (place + 2) } }
{
    Pair {
        hcnox: number16(bytes, place),
        co: number16(bytes, place + 2),
    }
}

// The four bytes of a pair, as `pair16` reads them.
pub fn pair_bytes(numbers: Pair<u32>) -> [u8; 4]
    ensures { result ≡ bytes16 numbers.hcnox ++ bytes16 numbers.co }
{
    let [h0, h1] = bytes16(numbers.hcnox);
    let [c0, c1] = bytes16(numbers.co);
    [h0, h1, c0, c1]
}
