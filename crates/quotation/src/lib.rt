// Quote: the call that a market maker's two sides come in by. Its promise is one equation: everything that it returns and the session after it (A1).
#![tactic(auto)]

ghost use Rattle.std.specs.Prelude.{◌≡◌, ◌<◌};
ghost use Rattle.terms.specs.Bounds.{places};
ghost use Rattle.session.specs.Sound.{Sound};
ghost use Rattle.quotation.specs.Quote.{quoted as quote_quoted};
ghost use Rattle.quotation.specs.QuoteCall.{old_pair, requoted_in, quoted_with};

use book::Book;
use effects::{QuoteChange, quote_effect};
use quotes::{Pair, quote_place, requote};
use session::Session;
use terms::{QuoteEntry, Side};

// What the call returns, `S` as in `entries`.
#[derive(Clone, Copy)]
pub struct Quoted<S> {
    // 0, or the refusal's number: the promises and A4 speak of numbers.
    pub answer: u8,
    pub bid: u32,
    pub ask: u32,
    pub session: S,
}

// Where the sides of a member's quote stand.
pub fn old_pair(book: &Book, member: u16) -> Pair
    ensures { result ≡ old_pair book.now.quoted book.now.member book.now.side member }
{
    let bid = quote_place(book, member, Side::BUY);
    let ask = quote_place(book, member, Side::SELL);
    Pair { bid, ask }
}

// A session with a quote in place of the member's old one, by value; a loop that holds a session writes the same in its own.
pub fn requoted(mut session: Session, c: QuoteChange) -> Session
    requires { (c.fresh.bid < places) × (c.fresh.ask < places) }
    ensures { result ≡ requoted_in session c }
{
    session.given = c.given;
    requote(&mut session.book, c.old, c.fresh, c.bid, c.ask);
    session
}

fn quote_done(session: Session, c: QuoteChange) -> Quoted<Session>
    requires { (c.fresh.bid < places) × (c.fresh.ask < places) }
    ensures { result ≡ quoted_with session c }
{
    Quoted {
        answer: 0,
        bid: c.bid.number,
        ask: c.ask.number,
        session: requoted(session, c),
    }
}

// Quote: refusals 1, 13, 2, 4, 5, 6, 7, 8, 9, 10. The member's old quote is gone first; the bid takes the first of two new numbers and places, the
// ask the second; both are entered, or nothing changes (02 K2).
pub fn quote(session: Session, e: QuoteEntry) -> Quoted<Session>
    requires { Sound session }
    ensures { result ≡ quote_quoted session e }
{
    let parameters = session.parameters;
    let old = old_pair(&session.book, e.member);
    let effect = quote_effect(
        session.phase,
        parameters,
        parameters.reference,
        false,
        session.given,
        &session.book.taken,
        old,
        e,
    );
    match effect {
        Err(refusal) => Quoted {
            answer: u8::from(refusal),
            bid: 0,
            ask: 0,
            session,
        },
        Ok(c) => quote_done(session, c),
    }
}
