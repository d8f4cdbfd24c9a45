// The same in a lent slice of any length, from its front on: what puts bytes there answers the place behind them. Slice and place stay two, so that
// whoever has them can call.
ghost use Rattle.std.specs.Prelude.{◌≡◌, ◌+◌, ◌≤◌, ◌<◌, ◌++◌, length, take};

use itoa::{Buffer, Integer};

// What is gathered goes to standard output. A write that fails is passed over.
pub fn show(rt: &impl Print, out: &[u8], at: usize)
    requires { at ≤ length out.now }
{
    let _ = rt.write_all(&out[..at]);
}

// Bytes behind those that are gathered; where there is no room for them both are shown.
pub fn put_bytes(rt: &impl Print, out: &mut [u8], at: usize, bytes: &[u8]) -> usize
    requires { at ≤ length out.old }
    ensures within { result ≤ length out.old }
    ensures gathered { at + length bytes.now ≤ length out.old → take result out.new ≡ take at out.old ++ bytes.now }
    ensures shown { length out.old < at + length bytes.now → result ≡ 0 }
{
    if out.len() - at < bytes.len() {
        show(rt, out, at);
        let _ = rt.write_all(bytes);
        return 0;
    }
    let end = at + bytes.len();
    out[at..end].copy_from_slice(bytes);
    end
}

// Numbers in decimal, each behind a space: of 64 bits, or a queue's order numbers.
pub fn put_numbers<I: Integer + Copy>(
    rt: &impl Print,
    out: &mut [u8],
    at: usize,
    numbers: &[I],
) -> usize
    requires { at ≤ length out.old }
    ensures { result ≤ length out.old }
{
    let mut digits = Buffer::new();
    let mut end = at;
    for number in numbers {
        end = put_bytes(rt, out, end, b" ");
        end = put_bytes(rt, out, end, digits.format(*number).as_bytes());
    }
    end
}

// A line of a word and its numbers.
pub fn put_line(rt: &impl Print, out: &mut [u8], at: usize, word: &[u8], numbers: &[u64]) -> usize
    requires { at ≤ length out.old }
    ensures { result ≤ length out.old }
{
    let p = put_bytes(rt, out, at, word);
    let q = put_numbers(rt, out, p, numbers);
    put_bytes(rt, out, q, b"\n")
}
