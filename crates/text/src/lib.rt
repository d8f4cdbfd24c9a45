// Text: bytes, words and numbers in decimal, each written into a lent buffer from a place on; the place behind it (01 "Session file").
#![tactic(auto)]

ghost use Rattle.std.specs.Prelude.{◌≡◌, ◌∷◌, [], ◌+◌, ◌≤◌, ◌<◌, length};
ghost use Rattle.text.specs.Text.{most_digits, decimal, digit, pair, space, numeral_room};
ghost use Rattle.lists.specs.Put.{Wrote};

const SPACE: u8 = b' ';

const ZERO: u8 = b'0';

const BASE: u64 = 10;

pub fn put_byte(out: &mut [u8], at: usize, byte: u8) -> usize
    requires { at + 1 ≤ length out.old }
    ensures { Wrote out.old out.new at result (byte ∷ []) }
{
    out[at] = byte;
    at + 1
}

pub fn put_bytes(out: &mut [u8], at: usize, word: &[u8]) -> usize
    requires { at + length word.now ≤ length out.old }
    ensures { Wrote out.old out.new at result word.now }
{
    let end = at + word.len();
    out[at..end].copy_from_slice(word);
    end
}

// How many digits a number has.
fn count_digits(x: u64) -> usize
    ensures { result ≡ length (decimal x) }
{
    let mut n: usize = 1;
    let mut rest = x;
    // No count is fixed before the digits are gone.
    while rest >= BASE {
        rest = rest / BASE;
        n += 1;
    }
    n
}

// A number in decimal, from its last digit to its first.
fn put_digits(out: &mut [u8], at: usize, x: u64) -> usize
    requires { at + most_digits ≤ length out.old }
    ensures { Wrote out.old out.new at result (decimal x) }
{
    let n = count_digits(x);
    let mut rest = x;
    for i in (0..n).rev() {
        out[at + i] = ZERO + (rest % BASE) as u8;
        rest = rest / BASE;
    }
    at + n
}

// A number of one digit.
fn put_digit(out: &mut [u8], at: usize, x: u32) -> usize
    requires { (at + 1 ≤ length out.old) × (x < 10) }
    ensures { Wrote out.old out.new at result (digit x ∷ []) }
{
    put_byte(out, at, ZERO + x as u8)
}

// Two digits, the first of which may be 0.
fn put_pair(out: &mut [u8], at: usize, x: u32) -> usize
    requires { (at + 2 ≤ length out.old) × (x < 100) }
    ensures { Wrote out.old out.new at result (pair x) }
{
    let p = put_digit(out, at, x / 10);
    put_digit(out, p, x % 10)
}

// A number in decimal. Most numbers of a session are short, and are written with no loop.
pub fn put_decimal(out: &mut [u8], at: usize, x: u64) -> usize
    requires { at + most_digits ≤ length out.old }
    ensures { Wrote out.old out.new at result (decimal x) }
{
    if x < 10 {
        return put_digit(out, at, x as u32);
    }
    if x < 100 {
        return put_pair(out, at, x as u32);
    }
    if x < 1000 {
        let y = x as u32;
        let p = put_digit(out, at, y / 100);
        return put_pair(out, p, y % 100);
    }
    if x < 10_000 {
        let y = x as u32;
        let p = put_pair(out, at, y / 100);
        return put_pair(out, p, y % 100);
    }
    put_digits(out, at, x)
}

// A number behind a space.
pub fn put_number(out: &mut [u8], at: usize, x: u64) -> usize
    requires { at + numeral_room ≤ length out.old }
    ensures { Wrote out.old out.new at result (space ∷ decimal x) }
{
    let p = put_byte(out, at, SPACE);
    put_decimal(out, p, x)
}
