// Reads cases from standard input, one on each line, runs each on the library, and writes a line of what came back.
// Begin with docs/REPLAY.md, which has the lines, then with `main` and `operations`.
#![tactic(auto)]

ghost use Rattle.std.specs.Prelude.{◌≤◌, ◌+◌, length};
ghost use Rattle.replay.specs.Limits.{most_answer};

use std::io;
use std::io::Read;

mod areas;
mod changes;
mod fields;
mod filling;
mod formulas;
mod lines;
mod operations;
mod packing;
mod places;
mod results;
mod telling;

// A line of more bytes than this is no case.
const LONGEST_LINE: usize = 65536;

// How many places an area that is lent may have: of bytes, and of words.
const MOST_BYTES: usize = 40000;

const MOST_WORDS: usize = 9000;

// The fields of bytes of a line: two digits for each byte.
const MOST_GIVEN: usize = LONGEST_LINE / 2;

// An answer with two areas of words written in full, and what stands beside them.
const MOST_ANSWER: usize = 2 * 16 * MOST_WORDS + 128;

// Answers are gathered, and written once they are longer than this.
const ENOUGH: usize = 65536;

// So much of the input is read at once.
const PIECE: usize = 65536;

// The line that has begun, and how much of it there is. One that is too long fills the area, and the rest of it is dropped.
#[derive(Drop)]
struct Line {
    bytes: [u8; LONGEST_LINE + 1],
    held: usize,
    ghost inside: { held ≤ length bytes },
}

impl Line {
    fn new() -> Line {
        Line {
            bytes: areas::zeroed(),
            held: 0,
        }
    }

    fn add(&mut self, byte: u8) {
        if self.held < self.bytes.len() {
            self.bytes[self.held] = byte;
            self.held += 1;
        }
    }
}

// Writes the answer to a line behind what an area holds, and answers how much it holds then.
fn gather(line: &[u8], area: &mut [u8], held: usize) -> usize
    requires { held + most_answer ≤ length area.old }
    ensures { result ≤ held + most_answer }
{
    let out = area[held..].first_chunk_mut().unwrap();
    held + operations::answer(line, out)
}

// The answers that are not written yet, with room for one more.
#[derive(Drop)]
struct Answers {
    bytes: [u8; ENOUGH + MOST_ANSWER],
    held: usize,
    ghost room: { held + most_answer ≤ length bytes },
}

impl Answers {
    fn new() -> Answers {
        Answers {
            bytes: areas::zeroed(),
            held: 0,
        }
    }

    // Writes all that is gathered. (A write that fails ends the program.)
    fn write(&mut self, rt: &impl Print) -> io::Result<()> {
        let end = self.held;
        self.held = 0;
        rt.write_all(&self.bytes[..end])
    }

    // Gathers the answer to the line, which then begins anew.
    fn add(&mut self, rt: &impl Print, line: &mut Line) -> io::Result<()> {
        let end = gather(&line.bytes[..line.held], &mut self.bytes, self.held);
        line.held = 0;
        if end > ENOUGH {
            self.held = 0;
            return rt.write_all(&self.bytes[..end]);
        }
        self.held = end;
        Ok(())
    }
}

// A piece of the input, byte by byte: at the end of each line its answer is gathered.
fn take_piece(
    rt: &impl Print,
    piece: &[u8],
    line: &mut Line,
    answers: &mut Answers,
) -> io::Result<()> {
    for b in piece {
        if *b == b'\n' {
            answers.add(rt, line)?;
        } else {
            line.add(*b);
        }
    }
    Ok(())
}

// The input to its end. The pieces are counted from more than there can be, so that this ends. A last line without a newline is ended by the input's end.
fn replay(rt: &impl Print, input: &mut impl Read) -> io::Result<()> {
    let mut piece = [0u8; PIECE];
    let mut line = Line::new();
    let mut answers = Answers::new();
    for _ in 0..u64::MAX {
        let length = input.read(&mut piece)?;
        if length == 0 {
            break;
        }
        take_piece(rt, &piece[..length], &mut line, &mut answers)?;
    }
    if line.held > 0 {
        answers.add(rt, &mut line)?;
    }
    answers.write(rt)
}

fn main(rt: HostRuntime) -> io::Result<()> {
    replay(&rt, &mut rt.stdin())
}
