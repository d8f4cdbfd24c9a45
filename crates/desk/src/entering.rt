// Order and quote: the calls by which a member comes in. A thirty-third one is refused, and an accepted entry's places have its member's row.
ghost use Rattle.std.specs.Prelude.{◌≡◌, ◌<◌};
ghost use Rattle.squares.specs.Square.{square_members};
ghost use Rattle.desk.specs.Desk.{count_with};
ghost use Rattle.desk.specs.Calls.{entered as calls_entered, quoted as calls_quoted};
ghost use Rattle.desk.specs.Sound.{SoundDesk};

use crate::Desk;
use book::put;
use effects::{order_effect, quote_effect};
use entries::Entered;
use quotation::{Quoted, old_pair};
use quotes::requote;
use squares::{MEMBERS, row_of};
use terms::{Entry, QuoteEntry};

// How many members are entered once one with this row is.
fn count_with(count: usize, row: usize) -> usize
    requires { row < square_members }
    ensures { result ≡ count_with count row }
{
    if row == count {
        return row + 1;
    }
    count
}

// Order: refusals 1, 2, 4, 5, 6, 7, 8, 16, 9, 10. The change is written as in `entries`, in the desk itself: a session by value would be one
// copy more.
pub fn order(mut desk: Desk, e: Entry) -> Entered<Desk>
    requires { SoundDesk desk }
    ensures { result ≡ calls_entered desk e }
{
    let row = row_of(&desk.members, desk.count, e.member);
    let parameters = desk.session.parameters;
    let effect = order_effect(
        desk.session.phase,
        parameters,
        parameters.reference,
        MEMBERS <= row,
        desk.session.given,
        &desk.session.book.taken,
        e,
    );
    match effect {
        Err(refusal) => Entered {
            answer: u8::from(refusal),
            number: 0,
            session: desk,
        },
        Ok(c) => {
            desk.session.given = c.given;
            desk.session.book.write(c.place, c.word, c.values);
            put(&mut desk.rows, c.place, row as u8);
            desk.members[row] = e.member;
            desk.count = count_with(desk.count, row);
            Entered {
                answer: 0,
                number: c.given,
                session: desk,
            }
        }
    }
}

// Quote: refusals 1, 13, 2, 4, 5, 6, 7, 8, 16, 9, 10.
pub fn quote(mut desk: Desk, e: QuoteEntry) -> Quoted<Desk>
    requires { SoundDesk desk }
    ensures { result ≡ calls_quoted desk e }
{
    let row = row_of(&desk.members, desk.count, e.member);
    let parameters = desk.session.parameters;
    let old = old_pair(&desk.session.book, e.member);
    let effect = quote_effect(
        desk.session.phase,
        parameters,
        parameters.reference,
        MEMBERS <= row,
        desk.session.given,
        &desk.session.book.taken,
        old,
        e,
    );
    match effect {
        Err(refusal) => Quoted {
            answer: u8::from(refusal),
            bid: 0,
            ask: 0,
            session: desk,
        },
        Ok(c) => {
            desk.session.given = c.given;
            requote(&mut desk.session.book, c.old, c.fresh, c.bid, c.ask);
            put(&mut desk.rows, c.fresh.bid, row as u8);
            put(&mut desk.rows, c.fresh.ask, row as u8);
            desk.members[row] = e.member;
            desk.count = count_with(desk.count, row);
            Quoted {
                answer: 0,
                bid: c.bid.number,
                ask: c.ask.number,
                session: desk,
            }
        }
    }
}
