// What an auction, a theoretical answer and a ranked queue cost. Three bytes on standard input say the book and the call:
// the size, `a` to `d` (2, 32, 128 or 512 orders); the orders, `o` with one limit, `w` the worst, else mixed; the call, `a` an opening, `c` an
// opening and a closing, `t` a theoretical answer, `q` a ranked queue, any other none. tools/bench.sh counts the instructions.
#![tactic(auto)]

ghost use Rattle.std.specs.Prelude.{◌≤◌, length};
ghost use Rattle.session.specs.Sound.{Sound};
ghost use Rattle.terms.specs.Bounds.{trade_list_length};

use calls::{AuctionAnswer, Session};
use courses::no_answer;
use loads::{Load, Orders, REFERENCE};
use std::io::Read;
use terms::{Auction, DelayThreshold, Side};

#[derive(Clone, Copy)]
struct LastCall {
    result: AuctionAnswer,
    session: Session,
}

fn size_of(byte: u8) -> u32
    ensures { (2 ≤ result) × (result ≤ 512) }
{
    match byte {
        b'a' => 2,
        b'b' => 32,
        b'c' => 128,
        _ => 512,
    }
}

// With the highest threshold, so that no opening of these books is delayed.
fn filled(orders: u32, which: u8) -> Session
    requires { (2 ≤ orders) × (orders ≤ 512) }
    ensures { Sound result }
{
    let mut session = loads::started(REFERENCE, DelayThreshold::MAX);
    for order in Orders::<7, 1>::new(Load::from(which), orders) {
        session = calls::order(session, order).session;
    }
    session
}

// An opening and then, where it is asked for, a closing too: called in two places the auction stays a function of its own, whose
// stack tools/stack.sh can watch.
fn auctions(session: Session, closing: bool, list: &mut [u32]) -> LastCall
    requires { Sound session }
{
    let r = calls::auction(session, Auction::OPENING, list);
    let day = r.session;
    if closing {
        let s = calls::auction(day, Auction::CLOSING, list);
        return LastCall {
            result: s.result,
            session: s.session,
        };
    }
    LastCall {
        result: r.result,
        session: day,
    }
}

// The call more; an auction and a ranked queue write to the list.
fn one_more(session: Session, byte: u8, list: &mut [u32]) -> LastCall
    requires { Sound session }
{
    match byte {
        b'a' => auctions(session, false, list),
        b'c' => auctions(session, true, list),
        b't' => {
            let r = calls::theoretical(session, Auction::OPENING);
            LastCall {
                result: r.result,
                session,
            }
        }
        b'q' => {
            let r = calls::ranked(session, Side::BUY, Auction::OPENING, list);
            let mut result = no_answer();
            result.count = r.count;
            LastCall { result, session }
        }
        _ => LastCall {
            result: no_answer(),
            session,
        },
    }
}

fn sum(numbers: &[u32]) -> u64
    requires { length numbers.now ≤ trade_list_length }
{
    numbers.iter().map(|number| u64::from(*number)).sum()
}

// A write that fails is passed over.
fn put_number(rt: &impl Print, n: u64) {
    let _ = println!(rt; "{n}");
}

// What the call answered, the list and the book are all read at the end: a compiler drops what nobody reads.
fn main(rt: HostRuntime) {
    let mut bytes = [0u8; 3];
    let _ = rt.reader().read(&mut bytes);
    let session = filled(size_of(bytes[0]), bytes[1]);
    let mut list = [0u32; Session::TRADE_LIST];
    let last = one_more(session, bytes[2], &mut list);
    let r = last.result;
    put_number(&rt, u64::from(r.outcome));
    put_number(&rt, u64::from(r.price));
    put_number(&rt, r.quantity);
    put_number(&rt, u64::from(r.count));
    put_number(&rt, sum(&list));
    let book = last.session.book;
    put_number(&rt, sum(&book.left));
}
