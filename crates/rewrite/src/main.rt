// A session file read and written again, record by record, from standard input to standard output (01 "Session file"; K1): of a good file the
// same bytes.
#![tactic(auto)]

mod copy;

use copy::{Ending, rewritten};
use feed::read_full;

// The longest file that is read.
const FILE: usize = 65_536;

// A write that fails is passed over, here and in `tell`.
fn show(rt: &impl Print, out: &[u8]) {
    let _ = rt.write_all(out);
}

// Why the record at which the copy ended was not written; nothing at the end of the file.
fn tell(rt: &impl Eprint, r: Ending) {
    let count = r.count;
    let answer = r.written.answer;
    if answer != 0 {
        let _ = eprintln!(rt; "rewrite: record {count} is refused with {answer}");
    } else if r.faulty {
        let _ = eprintln!(rt; "rewrite: record {count} is faulty");
    }
}

// The first 65,536 bytes are the whole file, so that it is read once and fits its buffer.
fn main(rt: HostRuntime) {
    let mut file = [0u8; FILE];
    let size = read_full(&rt, &mut file);
    let mut out = [0u8; FILE];
    let r = rewritten(&file[..size], &mut out);
    show(&rt, &out[..r.written.place]);
    tell(&rt, r);
}
