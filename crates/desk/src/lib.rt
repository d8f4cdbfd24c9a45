// A session that keeps the square (02 K5): a type of its own around a session, with the session's calls. It goes into a call by value and comes back by
// value; its auction stands in `desk_auction`.
#![tactic(auto)]

mod entering;

ghost use Rattle.std.specs.Prelude.{◌≡◌};
ghost use Rattle.squares.specs.Square.{square_of};
ghost use Rattle.desk.specs.Desk.{fresh_desk};
ghost use Rattle.desk.specs.Calls.{started, deleted as calls_deleted};
ghost use Rattle.desk.specs.Sound.{SoundDesk};

pub use entering::{order, quote};
use entries::{Deleted, Started};
use session::Session;
use squares::{CELLS, MEMBERS, square_of};
use terms::{Place, Start};

#[derive(Clone, Copy)]
pub struct Desk {
    pub session: Session,
    // The members in the order of their first accepted entry, and how many.
    pub members: [u16; MEMBERS],
    pub count: usize,
    // By place, the row of the member whose order rests there: an auction then looks no member up.
    pub rows: [u8; Place::COUNT],
    // The square's cells, row after row.
    pub totals: [u64; CELLS],
}

impl Desk {
    // Around a session that has not started.
    pub fn fresh() -> Desk
        ensures { result ≡ fresh_desk }
    {
        let members = [0u16; MEMBERS];
        let rows = [0u8; Place::COUNT];
        let totals = [0u64; CELLS];
        Desk {
            session: Session::fresh(),
            members,
            count: 0,
            rows,
            totals,
        }
    }
}

// Start: refusals 1, 3.
pub fn start(mut desk: Desk, start: Start) -> Started<Desk>
    requires { SoundDesk desk }
    ensures { result ≡ started desk start }
{
    let r = entries::start(desk.session, start);
    desk.session = r.session;
    Started {
        answer: r.answer,
        session: desk,
    }
}

// Delete: refusals 1, 2, 11. A member whose orders are gone stays entered.
pub fn delete(mut desk: Desk, number: u32, member: u16) -> Deleted<Desk>
    requires { SoundDesk desk }
    ensures { result ≡ calls_deleted desk number member }
{
    let r = entries::delete(desk.session, number, member);
    desk.session = r.session;
    Deleted {
        answer: r.answer,
        session: desk,
    }
}

// The square: a row for each buying member, a column for each selling one.
pub fn square(desk: Desk) -> [[u64; MEMBERS]; MEMBERS]
    requires { SoundDesk desk }
    ensures { result ≡ square_of desk.totals }
{
    square_of(&desk.totals)
}
