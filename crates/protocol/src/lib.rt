// The key line: what a line of bytes asks for, and the reply.
#![tactic(auto)]

// "At most 64 bytes, then a newline"; of a longer line one extra byte is held, which shows that it is longer. Every reply is shorter than its output.
pub const LINE_SIZE: usize = 64;

pub const HELD_SIZE: usize = 65;

pub const REPLY_SIZE: usize = 96;

// A number read at a position of a line, and the position of the next byte.
#[derive(Clone, Copy)]
pub struct Number {
    pub value: u32,
    pub next: usize,
}
