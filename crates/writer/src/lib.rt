// The writer of session files: one record at a place of a lent buffer, whole or not at all (01 "Session file"; K1).
#![tactic(auto)]

mod kinds;
mod numbers;

ghost use Rattle.std.specs.Prelude.{◌≡◌, not, ◌+◌, ltb, length};
ghost use Rattle.writer.specs.Writing.{write_leaves, written};

use kinds::{length_of, put_record};
use records::Record;
use refusals::Refusal;

// The refusal, or 0 and the place behind the record.
#[derive(Clone, Copy)]
pub struct Written {
    // 0, or the refusal's number: the promise and K1c speak of numbers.
    pub answer: u8,
    pub place: usize,
}

// Whether so many bytes from a place on end within the buffer; the place may lie behind the buffer's end, however far.
fn has_room(buffer: &[u8], place: usize, size: usize) -> bool
    ensures { result ≡ not (ltb (length buffer.now) (place + size)) }
{
    place <= buffer.len() && size <= buffer.len() - place
}

// Writing a record: refusals 1, 12. On a refusal the buffer and the place stay.
pub fn write_record(record: Record, buffer: &mut [u8], place: usize) -> Written
    ensures { write_leaves result buffer.new ≡ written «record» buffer.old place }
{
    if !records::in_range(record) {
        let answer = u8::from(Refusal::OutOfRange);
        return Written { answer, place };
    }
    if !has_room(buffer, place, length_of(record)) {
        let answer = u8::from(Refusal::TooShort);
        return Written { answer, place };
    }
    let next = put_record(buffer, place, record);
    Written {
        answer: 0,
        place: next,
    }
}
