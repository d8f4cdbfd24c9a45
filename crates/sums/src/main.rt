// The sums of 01 "Sums to check by hand" and its worked input, run through the session: what it answers, one line each, is held to
// the file `stdout`, whose numbers are the paper's.
#![tactic(auto)]

ghost use Rattle.std.specs.Prelude.{T};
ghost use Rattle.session.specs.Sound.{Sound};
ghost use Rattle.loads.specs.Loads.{can_ask};

use calls::{AuctionAnswer, Session};
use loads::{REFERENCE, started};
use terms::{Auction, Entry, Side, Validity};

const THRESHOLD: u16 = 150;

// A write that fails is passed over, here and wherever a line is printed.
fn put_line(rt: &impl Print, name: &str, one: u64, other: u64) {
    let _ = println!(rt; "{name} {one} {other}");
}

fn put_answer(rt: &impl Print, name: &str, r: AuctionAnswer) {
    let AuctionAnswer {
        outcome,
        price,
        quantity,
        count,
    } = r;
    let _ = println!(rt; "{name} {outcome} {price} {quantity} {count}");
}

// Limit 0 means unlimited.
fn entry(side: u8, validity: u8, quantity: u32, limit: u32) -> Entry {
    Entry {
        member: 7,
        side,
        validity,
        quantity,
        limit,
    }
}

fn entered(session: Session, entry: Entry) -> Session
    requires { Sound session }
    ensures { Sound result }
{
    calls::order(session, entry).session
}

// With an order for the day.
fn resting(session: Session, side: u8, quantity: u32, limit: u32) -> Session
    requires { Sound session }
    ensures { Sound result }
{
    entered(session, entry(side, Validity::DAY, quantity, limit))
}

// A session with one buy and one sell.
fn two(buy: u32, buy_limit: u32, sell: u32, sell_limit: u32) -> Session
    ensures { Sound result }
{
    let session = resting(started(REFERENCE, THRESHOLD), Side::BUY, buy, buy_limit);
    resting(session, Side::SELL, sell, sell_limit)
}

// An auction; its four numbers end the line.
fn held(rt: &impl Print, name: &str, session: Session, which: u8, list: &mut [u32]) -> Session
    requires { Sound session }
    ensures { Sound result }
{
    let r = calls::auction(session, which, list);
    put_answer(rt, name, r.result);
    r.session
}

fn opened(rt: &impl Print, name: &str, session: Session) -> Session
    requires { Sound session }
    ensures { Sound result }
{
    let mut list = [0u32; Session::TRADE_LIST];
    held(rt, name, session, Auction::OPENING, &mut list)
}

// What an order alone in the book is answered.
fn answered(quantity: u32, limit: u32) -> u64 {
    let session = started(REFERENCE, THRESHOLD);
    let r = calls::order(session, entry(Side::BUY, Validity::DAY, quantity, limit));
    u64::from(r.answer)
}

fn controls(rt: &impl Print) {
    put_line(rt, "P1", answered(1, 899_900), answered(1, 900_000));
    put_line(rt, "P2", answered(1, 11_200), answered(1, 11_100));
    put_line(
        rt,
        "P3",
        answered(5_000_000, 200_000),
        answered(4_999_999, 200_000),
    );
    put_line(rt, "P4", answered(10_000_000, 0), answered(9_999_999, 0));
}

fn prices(rt: &impl Print) {
    opened(rt, "P5", two(100, 100_500, 100, 99_500));
    opened(rt, "P6", two(100, 100_500, 60, 99_500));
    opened(rt, "P6", two(60, 100_500, 100, 99_500));
    opened(rt, "P7", two(50, 0, 50, 0));
    opened(rt, "P8", two(50, 0, 30, 100_200));
    opened(rt, "P8", two(30, 0, 30, 100_200));
}

// P9's book.
fn four(reference: u32) -> Session
    requires { T (can_ask reference THRESHOLD) }
    ensures { Sound result }
{
    let one = resting(started(reference, THRESHOLD), Side::BUY, 100, 100_400);
    let both = resting(one, Side::BUY, 20, 100_200);
    let three = resting(both, Side::SELL, 100, 99_800);
    resting(three, Side::SELL, 20, 100_400)
}

fn ties(rt: &impl Print) {
    opened(rt, "P9", four(REFERENCE));
    opened(rt, "P9", four(101_000));
}

fn delays(rt: &impl Print) {
    let delayed = opened(rt, "P10", two(10, 101_500, 10, 101_500));
    opened(rt, "P10", delayed);
    opened(rt, "P10", two(10, 101_400, 10, 101_400));
}

// How many orders rest on a side.
fn left(session: Session, side: u8) -> u64
    requires { Sound session }
{
    let mut list = [0u32; Session::QUEUE_LIST];
    let r = calls::ranked(session, side, Auction::CLOSING, &mut list);
    u64::from(r.count)
}

// The at-the-close order waits for the closing; both sides of the book are empty after it.
fn at_close(rt: &impl Print) {
    let buy = entered(
        started(REFERENCE, THRESHOLD),
        entry(Side::BUY, Validity::AT_CLOSE, 50, 0),
    );
    let session = resting(buy, Side::SELL, 30, 100_200);
    let day = opened(rt, "opening", session);
    let mut list = [0u32; Session::TRADE_LIST];
    let closed = held(rt, "closing", day, Auction::CLOSING, &mut list);
    put_line(
        rt,
        "resting",
        left(closed, Side::BUY),
        left(closed, Side::SELL),
    );
}

fn put_trade(rt: &impl Print, buy: u32, sell: u32, quantity: u32) {
    let _ = println!(rt; "trade {buy} {sell} {quantity}");
}

// The worked input: the trades as the list has them.
fn worked(rt: &impl Print) {
    let one = resting(started(REFERENCE, THRESHOLD), Side::BUY, 50, 100_200);
    let both = resting(one, Side::BUY, 50, 100_400);
    let three = resting(both, Side::BUY, 50, 100_200);
    let session = resting(three, Side::SELL, 80, 100_200);
    let mut list = [0u32; Session::TRADE_LIST];
    held(rt, "auction", session, Auction::OPENING, &mut list);
    put_trade(rt, list[0], list[1], list[2]);
    put_trade(rt, list[4], list[5], list[6]);
}

fn main(rt: HostRuntime) {
    controls(&rt);
    prices(&rt);
    ties(&rt);
    delays(&rt);
    opened(&rt, "empty", started(REFERENCE, THRESHOLD));
    at_close(&rt);
    worked(&rt);
}
