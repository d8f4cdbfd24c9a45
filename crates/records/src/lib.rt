// The session file: its records and what stands at a place of it (01 "Session file").
#![tactic(auto)]

mod kinds;
mod numbers;
mod ranges;
mod reader;
mod walk;

pub use kinds::{Deletion, Kind, Record, bands_from};
pub use ranges::in_range;
pub use reader::{Reader, read_at};

// What stands at a place of a file that may come in pieces: a record and the place behind it, a fault, or the end; `Waits` where it can't be told before more bytes, or the end, have come.
#[derive(Clone, Copy)]
pub enum Piece {
    Record(Record, usize),
    Waits,
    Fault,
    End,
}
