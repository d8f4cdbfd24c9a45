// The transcript: a session file's records run one by one, and what is printed of them (01 "Session file").
#![tactic(auto)]

mod steps;
mod tell;

use effects::{Change, QuoteChange};
use lines::Word;
use records::Record;
use session::Session;
pub use steps::auction_line;
pub use tell::{next_told, records_told};
use terms::OneStep;

// A session after a record whose lines are written, and the place behind them.
#[derive(Clone, Copy)]
pub struct Stepped<S> {
    pub session: S,
    pub at: usize,
}

// Why the telling of the bytes at hand stopped: no room for any record's lines, a record that is not whole yet, a fault, or the end.
#[derive(Clone, Copy)]
pub enum Stop {
    Full,
    Waits,
    Fault,
    End,
}

// What is told next: a record and the place behind it, or nothing. No `Result`: a stop is no error, the end of the bytes is one.
#[derive(Clone, Copy)]
pub enum Next {
    Record(Record, usize),
    Stop(Stop),
}

// How far the bytes at hand were told: the session, the records answered, the place behind them, and the place behind what was written.
#[derive(Clone, Copy)]
pub struct Telling {
    pub session: Session,
    pub answered: u64,
    pub place: usize,
    pub at: usize,
    pub stop: Stop,
}

// What a record does: an answer with nothing, or with a change at a place, or with a quote's, or a call by value. A refusal's answer is as wide as
// a change's place, so that the two lie in the same bytes and the compiler keeps both in registers. A start by bands is read again where it is carried
// out: with its table in here, every record would be moved in as many bytes (02 K6).
#[derive(Clone, Copy)]
pub enum Doing {
    Refused(Word, u64),
    Done(Word, Change),
    Quoted(QuoteChange),
    Start(OneStep),
    Auction(u8),
    Bands,
}
