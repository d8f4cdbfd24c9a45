// The public face of a session that keeps the square (02 K5): the calls of a session, each with the session's promise, 16 in its row, and the square.
#![tactic(auto)]

ghost use Rattle.std.specs.Prelude.{◌≡◌};
ghost use Rattle.foresight.specs.Theoretical.{theoretical};
ghost use Rattle.standings.specs.Queues.{queue_leaves, queued};
ghost use Rattle.desk.specs.Sound.{SoundDesk};

use desk::Desk;
use foresight::Foreseen;
use standings::Queued;

// Start: refusals 1, 3. Order: 1, 2, 4, 5, 6, 7, 8, 16, 9, 10. Quote: 1, 13, 2, 4, 5, 6, 7, 8, 16, 9, 10. Delete: 1, 2, 11.
pub use desk::{delete, order, quote, start};
// The square, by value.
pub use desk::square;
// Auction: refusals 1, 2, 4, 12.
pub use desk_auction::auction;
// Filled front: 1. It looks at no session.
pub use standings::filled_front;

// Theoretical answer: refusals 1, 2, 4.
pub fn theoretical(desk: Desk, which: u8) -> Foreseen
    requires { SoundDesk desk }
    ensures { result ≡ theoretical desk.session which }
{
    foresight::theoretical(desk.session, which)
}

// Ranked queue: refusals 1, 2, 12.
pub fn ranked(desk: Desk, side: u8, which: u8, list: &mut [u32]) -> Queued
    requires { SoundDesk desk }
    ensures { queue_leaves result list.new ≡ queued desk.session side which list.old }
{
    standings::ranked(desk.session, side, which, list)
}
