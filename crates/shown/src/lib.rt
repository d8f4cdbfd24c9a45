// Text gathered in a buffer that is lent and shown at once, not number by number.
#![tactic(auto)]

pub mod lent;

ghost use Rattle.std.specs.Prelude.{◌≡◌, ◌+◌, ◌≤◌, ◌<◌, [], ◌++◌, length};
ghost use Rattle.arrayvec.specs.ArrayVec.{array_vec_len};

use arrayvec::ArrayVec;
use itoa::{Buffer, Integer};

// What is gathered goes to standard output, and nothing is gathered then. A write that fails is passed over.
pub fn show<const ROOM: usize>(rt: &impl Print, text: &mut ArrayVec<u8, ROOM>)
    ensures { text.new.items ≡ [] }
{
    let _ = rt.write_all(text.as_slice());
    text.clear();
}

// Bytes behind those that are gathered; where there is no room for them both are shown, so that no look is too long.
pub fn put_bytes<const ROOM: usize>(rt: &impl Print, text: &mut ArrayVec<u8, ROOM>, bytes: &[u8])
    ensures gathered { array_vec_len text.old + length bytes.now ≤ ROOM → text.new.items ≡ text.old.items ++ bytes.now }
    ensures shown { ROOM < array_vec_len text.old + length bytes.now → text.new.items ≡ [] }
{
    if text.try_extend_from_slice(bytes).is_err() {
        show(rt, text);
        let _ = rt.write_all(bytes);
    }
}

// Numbers in decimal, each behind a space: of 64 bits, or a queue's order numbers.
pub fn put_numbers<I: Integer + Copy, const ROOM: usize>(
    rt: &impl Print,
    text: &mut ArrayVec<u8, ROOM>,
    numbers: &[I],
) {
    let mut digits = Buffer::new();
    for number in numbers {
        put_bytes(rt, text, b" ");
        put_bytes(rt, text, digits.format(*number).as_bytes());
    }
}

// A line of a word and its numbers.
pub fn put_line<const ROOM: usize>(
    rt: &impl Print,
    text: &mut ArrayVec<u8, ROOM>,
    word: &[u8],
    numbers: &[u64],
) {
    put_bytes(rt, text, word);
    put_numbers(rt, text, numbers);
    put_bytes(rt, text, b"\n");
}
