// The telling as a whole: the records of the bytes at hand, and behind them the last lines where the walk ended (01 "Session file").
#![tactic(auto)]

ghost use Rattle.std.specs.Prelude.{true, ◌≡◌, ◌+◌, ◌≤◌, ◌<◌, ◌^◌, length};
ghost use Rattle.session.specs.State.{fresh_session};
ghost use Rattle.session.specs.Sound.{Sound};
ghost use Rattle.lists.specs.Put.{Wrote};
ghost use Rattle.transcript.specs.Told.{last_of, last_room, faults, telling_leaves, told as told_told};

use lines::{end_line, fault_line};
use session::Session;
use transcript::{Stop, Telling, records_told};

// The fault, if one ended the walk, and the count of records answered.
pub fn last_lines(out: &mut [u8], at: usize, answered: u64, stop: Stop) -> usize
    requires { (at + last_room stop ≤ length out.old) × (answered + faults stop < 2 ^ 64) }
    ensures { Wrote out.old out.new at result (last_of answered stop) }
{
    match stop {
        Stop::Full => at,
        Stop::Waits => at,
        Stop::Fault => {
            let behind = fault_line(out, at, answered + 1);
            end_line(out, behind, answered)
        }
        Stop::End => end_line(out, at, answered),
    }
}

// The bytes at hand told from the buffer's front on. `ended` says that no more will come.
pub fn told(session: Session, answered: u64, bytes: &[u8], ended: bool, out: &mut [u8]) -> Telling
    requires { Sound session × (answered + length bytes.now < 2 ^ 64) }
    ensures { telling_leaves result out.new ≡ told_told session answered bytes.now ended out.old }
{
    let mut list = [0u32; Session::TRADE_LIST];
    let r = records_told(session, answered, bytes, ended, &mut list, out);
    let at = last_lines(out, r.at, r.answered, r.stop);
    Telling { at, ..r }
}

// A whole file told: what the session program prints for it, as far as there is room.
pub fn transcribed(file: &[u8], out: &mut [u8]) -> Telling
    ensures { telling_leaves result out.new ≡ told_told fresh_session 0 file.now true out.old }
{
    told(Session::fresh(), 0, file, true, out)
}
