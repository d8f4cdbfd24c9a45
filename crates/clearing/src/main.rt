// The clearing program: runs a session file from standard input in a session that keeps the square, prints the session's lines, and then who owes whom
// (02 K5).
#![tactic(auto)]

ghost use Rattle.std.specs.Prelude.{◌≡◌, ◌≤◌, length};
ghost use Rattle.records.specs.Lengths.{length_bound};
ghost use Rattle.transcript.specs.Steps.{record_room};
ghost use Rattle.desk_steps.specs.Steps.{Reached};

use desk::Desk;
use desk_steps::carried_out;
use feed::{Held, read_behind};
use owing::owed_lines;
use session::Session;
use telling::last_lines;
use transcript::{Next, Stop, next_told};

// Of the input and of the output each, in bytes.
const BUFFER: usize = 65_536;

// A loop must end and nothing says that an input does: there are never more turns than bytes and reads.
const MOST_TURNS: u64 = 1_099_511_627_776;

// What was gathered goes to standard output.
fn print(rt: &impl Print, errors: &impl Print, text: &[u8]) {
    if rt.write_all(text).is_err() {
        let _ = errors.write_all(b"clearing: standard output can't be written\n");
    }
}

// The records one by one, to the input's end or to a fault; the desk then.
fn walk(rt: &(impl Input + Print), errors: &impl Print, input: &mut [u8], out: &mut [u8]) -> Desk
    requires { (length input.old ≡ length_bound) × (record_room ≤ length out.old) }
    ensures { Reached result }
{
    let mut list = [0u32; Session::TRADE_LIST];
    let mut desk = Desk::fresh();
    let mut held = Held {
        from: 0,
        to: 0,
        ended: false,
    };
    let mut count: u64 = 0;
    let mut at: usize = 0;
    for _left in (0..MOST_TURNS).rev() {
        let next = next_told(&input[..held.to], held.from, held.ended, out.len() - at);
        match next {
            Next::Record(record, behind) => {
                count += 1;
                let r = carried_out(desk, record, count, &mut list, out, at);
                desk = r.session;
                at = r.at;
                held.from = behind;
            }
            Next::Stop(stop) => match stop {
                Stop::Full => {
                    print(rt, errors, &out[..at]);
                    at = 0;
                }
                Stop::Waits => {
                    // It holds fewer bytes than a record can have, so there is room for a read.
                    held = read_behind(
                        rt,
                        errors,
                        input,
                        held,
                        b"clearing: standard input can't be read further; it is taken to end here\n",
                    );
                }
                Stop::Fault | Stop::End => {
                    let end = last_lines(out, at, count, stop);
                    print(rt, errors, &out[..end]);
                    return desk;
                }
            },
        }
    }
    print(rt, errors, &out[..at]);
    let _ = errors.write_all(b"clearing: the run's turns are used up; what follows is not told\n");
    desk
}

fn main(rt: HostRuntime) {
    let errors = rt.stderr();
    let mut input = [0u8; BUFFER];
    let mut output = [0u8; BUFFER];
    let desk = walk(&rt, &errors, &mut input, &mut output);
    let end = owed_lines(&mut output, 0, desk);
    print(&rt, &errors, &output[..end]);
}
