// Bytes of standard input, read into a lent buffer behind those that are held.
#![tactic(auto)]

ghost use Rattle.std.specs.Prelude.{◌≡◌, ◌-◌, ◌≤◌, ◌<◌, length, take, drop};
ghost use Rattle.feed.specs.HeldBytes.{Within, held_in, ReadBehind, IsFront};

use std::io::Read;

// The bytes of the buffer that are not told yet, and whether more can come.
#[derive(Clone, Copy)]
pub struct Held {
    pub from: usize,
    pub to: usize,
    pub ended: bool,
}

// The bytes from one place to another, moved to the front; how many they are.
fn moved_to_front(bytes: &mut [u8], from: usize, to: usize) -> usize
    requires { (from ≤ to) × (to ≤ length bytes.old) }
    ensures { (result ≡ to - from) × (take result bytes.new ≡ take (to - from) (drop from bytes.old)) }
{
    bytes.copy_within(from..to, 0);
    to - from
}

// One read into the buffer; how many bytes came. A read that fails ends the input like its end, and the line is said of it.
fn read_some(rt: &impl Input, errors: &impl Print, bytes: &mut [u8], trouble: &[u8]) -> usize
    requires { 0 < length bytes.old }
    ensures { result ≤ length bytes.old }
{
    match rt.reader().read(bytes) {
        Ok(count) => count,
        Err(_) => {
            let _ = errors.write_all(trouble);
            0
        }
    }
}

// One read behind the bytes held, which leave room for it. The line on a read that fails is written to standard error, as `errors`.
pub fn read_behind(
    rt: &impl Input,
    errors: &impl Print,
    input: &mut [u8],
    held: Held,
    trouble: &[u8],
) -> Held
    requires { Within (length input.old) held × (held.to - held.from < length input.old) }
    ensures { Within (length input.old) result × ReadBehind (length input.old) (held_in held input.old) (held_in result input.new) result.ended }
{
    let kept = moved_to_front(input, held.from, held.to);
    let got = read_some(rt, errors, &mut input[kept..], trouble);
    Held {
        from: 0,
        to: kept + got,
        ended: got == 0,
    }
}

// Read after read from the buffer's front on, until it is full, the input ends or a read fails; how many bytes came.
pub fn read_full(rt: &impl Input, input: &mut [u8]) -> usize
    ensures { IsFront result input.new }
{
    let mut reader = rt.reader();
    let mut done: usize = 0;
    // Not a count by one: each read brings as many bytes as it likes.
    while done < input.len() {
        let count = reader.read(&mut input[done..]).unwrap_or(0);
        if count == 0 {
            break;
        }
        done += count;
    }
    done
}
