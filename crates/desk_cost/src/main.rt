// What a session that keeps the square costs. Three bytes on standard input say the book and the call. The book: `d`, 512 orders, or any other,
// 509 orders and a quote. Its orders are those of auction_cost, here of 32 members by turns: `o` with one limit, `w` the worst, else mixed. The
// call: `a` an opening, `c` a closing, which is refused, `o` an order and `q` a quote of the member of the last row, `s` the square, any other
// none. tools/bench.sh counts the instructions.
#![tactic(auto)]

ghost use Rattle.std.specs.Prelude.{◌≤◌};
ghost use Rattle.desk.specs.Sound.{SoundDesk};

use courses::{AuctionAnswer, no_answer};
use desk::Desk;
use loads::{Load, Orders, REFERENCE};
use session::Session;
use std::io::Read;
use terms::{Auction, DelayThreshold};

const LAST: u16 = 32;

#[derive(Clone, Copy)]
struct LastCall {
    answer: u8,
    result: AuctionAnswer,
    desk: Desk,
}

// With the highest threshold, so that no opening of these books is delayed.
fn started() -> Desk
    ensures { SoundDesk result }
{
    let fresh = Desk::fresh();
    desk::start(fresh, loads::start_at(REFERENCE, DelayThreshold::MAX)).session
}

fn size_of(byte: u8) -> u32
    ensures { (2 ≤ result) × (result ≤ 512) }
{
    if byte == b'd' {
        return 512;
    }
    509
}

// The quote is refused where the book is full.
fn filled(orders: u32, which: u8) -> Desk
    requires { (2 ≤ orders) × (orders ≤ 512) }
    ensures { SoundDesk result }
{
    let mut desk = started();
    for order in Orders::<1, 32>::new(Load::from(which), orders) {
        desk = desk::order(desk, order).session;
    }
    desk::quote(desk, loads::quote_of(LAST, 10)).session
}

// The call more; an auction writes to the list. Called in two places it stays a function of its own, whose stack tools/stack.sh can watch.
fn one_more(desk: Desk, byte: u8, list: &mut [u32]) -> LastCall
    requires { SoundDesk desk }
{
    match byte {
        b'a' => {
            let r = desk_auction::auction(desk, Auction::OPENING, list);
            LastCall {
                answer: r.answer,
                result: r.result,
                desk: r.session,
            }
        }
        b'o' => {
            let r = desk::order(desk, loads::buy_of(LAST));
            LastCall {
                answer: r.answer,
                result: no_answer(),
                desk: r.session,
            }
        }
        b'q' => {
            let r = desk::quote(desk, loads::quote_of(LAST, 20));
            LastCall {
                answer: r.answer,
                result: no_answer(),
                desk: r.session,
            }
        }
        b'c' => {
            let r = desk_auction::auction(desk, Auction::CLOSING, list);
            LastCall {
                answer: r.answer,
                result: no_answer(),
                desk,
            }
        }
        _ => LastCall {
            answer: 0,
            result: no_answer(),
            desk,
        },
    }
}

// A cell of the square, where it is asked for; which one is not known before the program runs.
fn cell(desk: Desk, byte: u8, which: u8) -> u64
    requires { SoundDesk desk }
{
    if byte == b's' {
        let at = usize::from(which) % 32;
        let square = desk::square(desk);
        let row = square[at];
        return row[at];
    }
    0
}

// Modulo 2^64: of numbers, or of the cells.
fn sum<T: Copy + Into<u64>>(numbers: &[T]) -> u64 {
    let mut total: u64 = 0;
    for number in numbers {
        total = total.wrapping_add((*number).into());
    }
    total
}

// A write that fails is passed over.
fn put_number(rt: &impl Print, n: u64) {
    let _ = println!(rt; "{n}");
}

fn put_answer(rt: &impl Print, answer: u8, r: AuctionAnswer) {
    put_number(rt, u64::from(answer));
    put_number(rt, u64::from(r.outcome));
    put_number(rt, u64::from(r.price));
    put_number(rt, r.quantity);
    put_number(rt, u64::from(r.count));
}

fn put_desk(rt: &impl Print, desk: Desk) {
    put_number(rt, sum(&desk.session.book.left));
    put_number(rt, sum(&desk.totals));
}

// What the call answered, the list, the book and the cells are all read at the end: a compiler drops what nobody reads.
fn put_call(rt: &impl Print, book: u8, orders: u8, call: u8) {
    let mut list = [0u32; Session::TRADE_LIST];
    let desk = filled(size_of(book), orders);
    let seen = cell(desk, call, book);
    let last = one_more(desk, call, &mut list);
    put_answer(rt, last.answer, last.result);
    put_number(rt, sum(&list));
    put_desk(rt, last.desk);
    put_number(rt, seen);
}

fn main(rt: HostRuntime) {
    let mut bytes = [0u8; 3];
    let _ = rt.reader().read(&mut bytes);
    put_call(&rt, bytes[0], bytes[1], bytes[2]);
}
