// A session for one security: what it holds, and the fresh one. It goes into a call by value and comes back by value.
#![tactic(auto)]

ghost use Rattle.std.specs.Prelude.{◌≡◌};
ghost use Rattle.session.specs.State.{fresh_session};

use book::Book;
use controls::Phase;
use terms::{Parameters, Place, Price};
use trades::Trade;

#[derive(Clone, Copy)]
pub struct Session {
    pub phase: Phase,
    // The delay of the opening has been given.
    pub delayed: bool,
    pub parameters: Parameters,
    // The reference price in force.
    pub reference: Price,
    // The last order number given.
    pub given: u32,
    pub book: Book,
}

impl Session {
    // What a caller lends: an auction's list has at least so many numbers, a ranked queue's so many.
    pub const TRADE_LIST: usize = Trade::LIST;

    pub const QUEUE_LIST: usize = Place::COUNT;

    // A session that has not started (A1).
    pub fn fresh() -> Session
        ensures { result ≡ fresh_session }
    {
        let least = Parameters::least();
        let reference = least.reference;
        Session {
            phase: Phase::Fresh,
            delayed: false,
            parameters: least,
            reference,
            given: 0,
            book: Book::empty(),
        }
    }
}
