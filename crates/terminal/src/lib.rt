// The calculator at a terminal: key lines from standard input, replies to standard output. What a read returns and what a write accepts is I/O behaviour,
// outside the contracts: here each byte is fetched and handed to `Line::key`, in order, and what that shows is printed. (protocol, specs/Console: for every
// input, these steps print document 01's run.)
#![tactic(auto)]

ghost use Rattle.std.specs.Prelude.{◌≡◌, ◌<◌, ◌+◌, ◌-◌, ◌^◌, [], take, is_ok};
ghost use Rattle.buffers.specs.Bytes.{zeros};
ghost use Rattle.protocol.specs.Console.{held_at, journal_at, journal_at_end};
ghost use Rattle.terminal.specs.Taken.{Taken, Stopped, Fetched, Answered, goes_on};

use console::{Line, end_input};
use journal::JOURNAL_SIZE;
use std::io;
use std::io::Read;

// The largest number of bytes in one read.
const PIECE_SIZE: usize = 4096;

// What one read brought: its bytes, at the front of the space, so that the contracts can refer to them; and how many reads were made.
#[derive(Drop)]
struct Piece {
    space: [u8; PIECE_SIZE],
    size: usize,
    reads: u64,
}

// Why no further read is made.
#[derive(Clone, Copy)]
enum Stop {
    InputEnded,
    OutputClosed,
    ReadsSpent,
}

// The journal, and the line that is being keyed.
#[derive(Drop)]
struct Calculator {
    journal: [u8; JOURNAL_SIZE],
    line: Line,
}

impl Calculator {
    // Takes a byte of the input. A byte that does not end a line shows nothing.
    fn take_byte<R: Print>(&mut self, rt: &R, byte: u8) -> io::Result<()>
        ensures line_after { self.new.line ≡ held_at byte self.old.line }
        ensures journal_after { self.new.journal ≡ journal_at byte self.old.line self.old.journal }
    {
        match self.line.key(&mut self.journal, byte) {
            Some(reply) => rt.write_all(reply.as_bytes()),
            None => Ok(()),
        }
    }

    // Takes bytes of the input. If nobody reads the output, the rest of them is left.
    fn take_bytes<R: Print>(&mut self, rt: &R, bytes: &[u8]) -> io::Result<()>
        ensures { Taken (is_ok result) bytes.now self.old self.new }
    {
        for byte in bytes {
            self.take_byte(rt, *byte)?;
        }
        Ok(())
    }

    // One read, of as many bytes as are available, so that a line is answered when it arrives; none at the end of the input, or if the read fails.
    fn take_piece<R: Print, I: Read>(
        &mut self,
        rt: &R,
        input: &mut I,
        piece: &mut Piece,
    ) -> io::Result<()>
        requires { piece.old.reads < 2 ^ 64 - 1 }
        ensures taken { Taken (is_ok result) (take piece.new.size piece.new.space) self.old self.new }
        ensures counted { piece.new.reads ≡ piece.old.reads + 1 }
    {
        piece.reads += 1;
        piece.size = input.read(&mut piece.space).unwrap_or(0);
        self.take_bytes(rt, &piece.space[..piece.size])
    }

    // Reads until the input ends or the output is closed, at most so many times. A proved loop must end, and nothing says that an input does.
    #[tactic(auto, using(crate::proofs::Pieces::nothing_fetched, crate::proofs::Pieces::next_fetched, crate::proofs::Pieces::last_fetched, crate::proofs::Pieces::more_allowed))]
    fn take_pieces<R: Print, I: Read>(
        &mut self,
        rt: &R,
        input: &mut I,
        piece: &mut Piece,
        most: u64,
    ) -> Stop
        ensures fetched { Fetched most (goes_on result) (take piece.new.size piece.new.space) self.old self.new }
        ensures stopped { Stopped result piece.new.size piece.new.reads most }
    {
        piece.size = 0;
        piece.reads = 0;
        for _read in 0..most {
            if self.take_piece(rt, input, piece).is_err() {
                return Stop::OutputClosed;
            }
            if piece.size == 0 {
                return Stop::InputEnded;
            }
        }
        Stop::ReadsSpent
    }

    // The end of the input: what is held is a last line without newline.
    fn finish<R: Print>(&mut self, rt: &R)
        ensures line_kept { self.new.line ≡ self.old.line }
        ensures journal_after { self.new.journal ≡ journal_at_end self.old.line self.old.journal }
    {
        if let Some(reply) = end_input(&mut self.journal, self.line.as_bytes()) {
            let _ = rt.write_all(reply.as_bytes());
        }
    }

    // Answers every line until the input ends or the output is closed, with more reads than any input needs. The caller has to provide document 01's starting
    // state.
    fn answer_input<R: Print, I: Read>(&mut self, rt: &R, input: &mut I) -> Stop
        requires zeroed { self.old.journal ≡ zeros 544 }
        requires empty { self.old.line ≡ [] }
        ensures { Answered result self.new }
    {
        let mut piece = Piece {
            space: [0; PIECE_SIZE],
            size: 0,
            reads: 0,
        };
        let stop = self.take_pieces(rt, input, &mut piece, u64::MAX);
        if let Stop::InputEnded = stop {
            self.finish(rt);
        }
        stop
    }
}

pub fn serve<R: Input + Print>(rt: &R) {
    let mut calculator = Calculator {
        journal: [0; JOURNAL_SIZE],
        line: Line::new(),
    };
    calculator.answer_input(rt, &mut rt.reader());
}
