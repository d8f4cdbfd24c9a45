// What one order, one quote and one deletion cost where the book is full. It makes a session in which 511 orders rest, 509 and the two sides of a
// quote, and one call more by the byte on standard input: `o` an order, `q` the quote overwritten, `d` a deletion, any other none. tools/bench.sh
// counts the instructions.
#![tactic(auto)]

ghost use Rattle.std.specs.Prelude.{◌≤◌, length};
ghost use Rattle.session.specs.Sound.{Sound};
ghost use Rattle.terms.specs.Bounds.{places};

use calls::Session;
use std::io::Read;

const ORDERS: u32 = 509;

const MEMBER: u16 = 7;

#[derive(Clone, Copy)]
struct LastCall {
    answer: u8,
    session: Session,
}

fn filled() -> Session
    ensures { Sound result }
{
    let mut session = loads::started(loads::REFERENCE, 150);
    for _ in 0..ORDERS {
        session = calls::order(session, loads::buy_of(MEMBER)).session;
    }
    calls::quote(session, loads::quote_of(MEMBER, 10)).session
}

// The one call more. The quote and the order that is deleted stand at late places, nearly the worst case. The new quote has another quantity, which
// the sum shows.
fn one_more(session: Session, byte: u8) -> LastCall
    requires { Sound session }
{
    match byte {
        b'o' => {
            let r = calls::order(session, loads::buy_of(MEMBER));
            LastCall {
                answer: r.answer,
                session: r.session,
            }
        }
        b'q' => {
            let r = calls::quote(session, loads::quote_of(MEMBER, 20));
            LastCall {
                answer: r.answer,
                session: r.session,
            }
        }
        b'd' => {
            let r = calls::delete(session, ORDERS, MEMBER);
            LastCall {
                answer: r.answer,
                session: r.session,
            }
        }
        _ => LastCall { answer: 0, session },
    }
}

fn open_quantity(left: &[u32]) -> u64
    requires { length left.now ≤ places }
{
    left.iter().map(|quantity| u64::from(*quantity)).sum()
}

// The book is read at the end: a compiler drops what nobody reads. A write that fails is passed over.
fn main(rt: HostRuntime) {
    let mut byte = [0u8; 1];
    let _ = rt.reader().read(&mut byte);
    let last = one_more(filled(), byte[0]);
    let answer = last.answer;
    let book = last.session.book;
    let quantity = open_quantity(&book.left);
    let _ = println!(rt; "{answer} {quantity}");
}
