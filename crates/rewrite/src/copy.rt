// The records of a file one by one, each written behind the one before (K1).
ghost use Rattle.std.specs.Prelude.{◌≡◌};
ghost use Rattle.rewrite.specs.Rewriting.{all_written, Rewrites};

use records::{Piece, read_at};
use writer::{Written, write_record};

// What the last record was answered, and the place behind what was written; the record at which the copy ended, counted from 1; and whether it
// is a fault. Not an enum of three endings: `Rewrites` and the theorem `good-file-rewritten` (K1b) speak of each of the three.
#[derive(Clone, Copy)]
pub struct Ending {
    pub written: Written,
    pub count: u64,
    pub faulty: bool,
}

// No record was refused.
fn all_written(end: usize, count: u64, faulty: bool) -> Ending
    ensures { result ≡ all_written end count faulty }
{
    Ending {
        written: Written {
            answer: 0,
            place: end,
        },
        count,
        faulty,
    }
}

// To the end of the file, a fault or a refusal. No more bytes will come, so that nothing is waited for.
pub(crate) fn rewritten(file: &[u8], out: &mut [u8]) -> Ending
    ensures { Rewrites file.now out.old result out.new }
{
    let mut count: u64 = 1;
    let mut place: usize = 0;
    let mut end: usize = 0;
    // From record to record: its number goes along for what is said of it.
    loop {
        let piece = read_at(file, place, true);
        match piece {
            Piece::Record(record, next) => {
                let written = write_record(record, out, end);
                let is_refused = written.answer != 0;
                if is_refused {
                    return Ending {
                        written,
                        count,
                        faulty: false,
                    };
                }
                count += 1;
                place = next;
                end = written.place;
            }
            Piece::Fault => return all_written(end, count, true),
            Piece::End => return all_written(end, count, false),
            Piece::Waits => return all_written(end, count, false),
        }
    }
}
