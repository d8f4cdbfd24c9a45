// The session program: runs a session file from standard input and prints what happened (01 "Session file").
#![tactic(auto)]

ghost use Rattle.std.specs.Prelude.{◌≡◌, ◌⊎◌, ◌+◌, ◌-◌, ◌≤◌, ◌<◌, ◌^◌, length, take, drop};
ghost use Rattle.records.specs.Lengths.{length_bound};
ghost use Rattle.transcript.specs.Steps.{record_room};
ghost use Rattle.feed.specs.HeldBytes.{Within, held_in};
ghost use Rattle.replay.specs.Turns.{waits_for, is_over, Fetched, RoomToRead, Going, Turned};
ghost use Rattle.replay.specs.WholeRun.{first_run, WholeRun};

use feed::{Held, read_behind};
use session::Session;
use telling::told;
use transcript::Stop;

// Of the input and of the output each, in bytes.
const BUFFER: usize = 65_536;

// A loop must end and nothing says that an input does. There are never more turns than bytes and reads (`turns-suffice`).
const MOST_TURNS: u64 = 1_099_511_627_776;

// Where a run stands: its session, the records answered, the bytes held, and why the last telling stopped.
#[derive(Clone, Copy)]
pub struct Run {
    pub session: Session,
    pub answered: u64,
    pub held: Held,
    pub stop: Stop,
}

fn waits(stop: Stop) -> bool
    ensures { result ≡ waits_for stop }
{
    matches!(stop, Stop::Waits)
}

fn is_over(stop: Stop) -> bool
    ensures { result ≡ is_over stop }
{
    matches!(stop, Stop::Fault | Stop::End)
}

// The bytes for the next telling: one read more where the last one waits for it. It holds fewer than a record can have, so there is room for a read.
fn next_held(rt: &impl Input, errors: &impl Print, input: &mut [u8], held: Held, stop: Stop) -> Held
    requires { Within (length input.old) held × RoomToRead (length input.old) held stop }
    ensures { Within (length input.old) result × Fetched stop (length input.old) (held_in held input.old) held.ended (held_in result input.new) result.ended }
{
    if waits(stop) {
        return read_behind(
            rt,
            errors,
            input,
            held,
            b"replay: standard input can't be read further; it is taken to end here\n",
        );
    }
    held
}

// What was told goes to standard output. Where it can't be written, the run is over.
fn print(rt: &impl Print, errors: &impl Print, text: &[u8], stop: Stop) -> Stop
    ensures { (result ≡ stop) ⊎ (result ≡ Stop.End) }
{
    if rt.write_all(text).is_err() {
        let _ = errors.write_all(b"replay: standard output can't be written\n");
        return Stop::End;
    }
    stop
}

// A turn: a read where the last telling waits for one, the bytes held told, and what was told printed.
fn turned(
    rt: &(impl Input + Print),
    errors: &impl Print,
    run: Run,
    input: &mut [u8],
    output: &mut [u8],
) -> Run
    requires { Going (length input.old) run × (length_bound ≤ length input.old) × (run.answered + length input.old < 2 ^ 64) }
    ensures { Going (length input.old) result × (result.answered ≤ run.answered + length input.old) × Turned run input.old output.old result input.new output.new }
{
    let held = next_held(rt, errors, input, run.held, run.stop);
    let r = told(
        run.session,
        run.answered,
        &input[held.from..held.to],
        held.ended,
        output,
    );
    let stop = print(rt, errors, &output[..r.at], r.stop);
    Run {
        session: r.session,
        answered: r.answered,
        held: Held {
            from: held.from + r.place,
            ..held
        },
        stop,
    }
}

fn first() -> Run
    ensures { result ≡ first_run }
{
    Run {
        session: Session::fresh(),
        answered: 0,
        held: Held {
            from: 0,
            to: 0,
            ended: false,
        },
        stop: Stop::Waits,
    }
}

// One turn after the other, until one is over; the run as the last one left it.
fn all_turns(
    rt: &(impl Input + Print),
    errors: &impl Print,
    input: &mut [u8],
    output: &mut [u8],
) -> Run
    requires { (length input.old ≡ length_bound) × (record_room ≤ length output.old) }
    ensures { WholeRun input.old output.old result input.new output.new }
{
    let mut run = first();
    for _left in (0..MOST_TURNS).rev() {
        run = turned(rt, errors, run, input, output);
        if is_over(run.stop) {
            return run;
        }
    }
    run
}

fn main(rt: HostRuntime) {
    let errors = rt.stderr();
    let mut input = [0u8; BUFFER];
    let mut output = [0u8; BUFFER];
    let last = all_turns(&rt, &errors, &mut input, &mut output);
    if !is_over(last.stop) {
        let _ = errors.write_all(
            b"replay: the run's turns are used up; what follows is not told\n",
        );
    }
}
