// Numbers of a file, little-endian, each written into a lent buffer from a place on; the place behind it (01 "Session file"; K1).
// One for each width: `to_le_bytes` is each type's own, under no trait.
ghost use Rattle.std.specs.Prelude.{◌+◌, ◌≤◌, length};
ghost use Rattle.lists.specs.Put.{Wrote};
ghost use Rattle.records.specs.Layout.{number_bytes};

fn put_bytes(out: &mut [u8], at: usize, bytes: &[u8]) -> usize
    requires { at + length bytes.now ≤ length out.old }
    ensures { Wrote out.old out.new at result bytes.now }
{
    let next = at + bytes.len();
    out[at..next].copy_from_slice(bytes);
    next
}

pub(crate) fn put_byte(out: &mut [u8], at: usize, x: u8) -> usize
    requires { at + 1 ≤ length out.old }
    ensures { Wrote out.old out.new at result (number_bytes 1 x) }
{
    out[at] = x;
    at + 1
}

pub(crate) fn put_two(out: &mut [u8], at: usize, x: u16) -> usize
    requires { at + 2 ≤ length out.old }
    ensures { Wrote out.old out.new at result (number_bytes 2 x) }
{
    put_bytes(out, at, &x.to_le_bytes())
}

pub(crate) fn put_four(out: &mut [u8], at: usize, x: u32) -> usize
    requires { at + 4 ≤ length out.old }
    ensures { Wrote out.old out.new at result (number_bytes 4 x) }
{
    put_bytes(out, at, &x.to_le_bytes())
}

pub(crate) fn put_eight(out: &mut [u8], at: usize, x: u64) -> usize
    requires { at + 8 ≤ length out.old }
    ensures { Wrote out.old out.new at result (number_bytes 8 x) }
{
    put_bytes(out, at, &x.to_le_bytes())
}
