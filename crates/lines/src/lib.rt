// The text of an answer, as the session program prints it (01 "Session file"; 02 K2).
#![tactic(auto)]

ghost use Rattle.std.specs.Prelude.{◌≡◌};
ghost use Rattle.lines.specs.Line.{numbered_line};

mod line_writer;
mod words;

pub use line_writer::{
    done_line, end_line, fault_line, line_of, put_numbers, quote_line, trade_lines,
};
pub use words::Word;

// At most: the digits of a number of 64 bits, and the letters of a word.
const DIGITS: usize = 20;

const LETTERS: usize = 7;

// Room that suffices: for a number behind a space, and for a word behind one with its answer, its numbers and the line's end.
const NUMBER_ROOM: usize = 1 + DIGITS;

const ANSWER_ROOM: usize = 1 + LETTERS + (1 + Line::NUMBERS) * NUMBER_ROOM + 1;

// .. behind a record's place, and for a trade's line, of three numbers behind a word of 5 bytes.
pub const LINE_ROOM: usize = DIGITS + ANSWER_ROOM;

pub const TRADE_ROOM: usize = 5 + 3 * NUMBER_ROOM + 1;

// What a record was answered: its word says how many of the numbers follow the answer.
#[derive(Clone, Copy)]
pub struct Line {
    pub word: Word,
    pub answer: u64,
    pub numbers: [u64; Line::NUMBERS],
}

impl Line {
    // At most so many numbers follow an answer.
    const NUMBERS: usize = 4;

    // With one number to tell, or, where it is 0, with none: as where a record is refused.
    pub fn numbered(word: Word, answer: u64, number: u64) -> Line
        ensures { result ≡ numbered_line word answer number }
    {
        Line {
            word,
            answer,
            numbers: [number, 0, 0, 0],
        }
    }
}
