// The lines of filled fronts (01 "Outcomes"): asked with what is open of the resting orders, with entries so large that their sums would wrap,
// and with lists at their bound.
ghost use Rattle.std.specs.Prelude.{◌≤◌, ◌<◌, length};
ghost use Rattle.feed.specs.HeldBytes.{IsFront};
ghost use Rattle.session.specs.Sound.{Sound};
ghost use Rattle.terms.specs.Bounds.{places};

use crate::Page;
use crate::queues::{ASKED, queue_of};
use book::Book;
use calls::{Session, filled_front};
use shown::put_line;
use terms::{Auction, Place, Side};

// A large entry is a quantity times 2^40: a quantity has at most 24 bits, so that it fits 64, and two of the largest together don't.
const LARGE_BITS: u32 = 40;

const LARGEST_TOTAL: u64 = u64::MAX;

// One less than the sum of as many ones as a list may have.
const ONES_TOTAL: u64 = Place::COUNT as u64 - 1;

// The answer: 0 or the refusal, how many entries the part has, and its last one, 0 where it has none.
#[derive(Clone, Copy)]
struct Front {
    answer: u8,
    length: usize,
    last: u64,
}

// What is open of the orders of each side, in rank order.
#[derive(Clone, Copy)]
struct Open<'a> {
    buys: &'a [u32],
    sells: &'a [u32],
    ghost few_buys: { length buys.now ≤ places },
    ghost few_sells: { length sells.now ≤ places },
}

fn front_of<'a>(buys: &'a [u64], sells: &'a [u64], side: u8, total: u64) -> Front {
    let mut answer: u8 = 0;
    let part = filled_front(buys, sells, side, total, &mut answer);
    Front {
        answer,
        length: part.len(),
        last: part.last().copied().unwrap_or(0),
    }
}

fn sum(quantities: &[u32]) -> u64
    requires { length quantities.now ≤ places }
{
    quantities.iter().map(|quantity| u64::from(*quantity)).sum()
}

// The quantities as entries, times a power of two; how many they are.
fn list_entries(list: &mut [u64], quantities: &[u32], bits: u32) -> usize
    requires { (length quantities.now ≤ length list.old) × (bits < 64) }
    ensures { IsFront result list.new }
{
    for (entry, quantity) in list.iter_mut().zip(quantities) {
        *entry = u64::from(*quantity) << bits;
    }
    quantities.len()
}

// A front of the side's list, asked with the quantities times a power of two.
fn front_line(rt: &impl Print, page: &mut Page, open: Open, bits: u32, side: u8, total: u64)
    requires { bits < 64 }
{
    let mut buy_entries = [0u64; Place::COUNT];
    let mut sell_entries = [0u64; Place::COUNT];
    let bids = list_entries(&mut buy_entries, open.buys, bits);
    let asks = list_entries(&mut sell_entries, open.sells, bits);
    let r = front_of(&buy_entries[..bids], &sell_entries[..asks], side, total);
    let numbers = [
        u64::from(side),
        total,
        u64::from(r.answer),
        r.length as u64,
        r.last,
    ];
    put_line(rt, page, b"front", &numbers);
}

// The sum of the other side's quantities; for a number that is no side, of the buys'.
fn total_for(open: Open, side: u8) -> u64 {
    if side == Side::BUY {
        return sum(open.sells);
    }
    sum(open.buys)
}

// .. of each side: with the quantities and the other side's sum, and with large entries and the largest total.
fn front_lines_with(rt: &impl Print, page: &mut Page, open: Open) {
    for side in 0..ASKED {
        front_line(rt, page, open, 0, side, total_for(open, side));
        front_line(rt, page, open, LARGE_BITS, side, LARGEST_TOTAL);
    }
}

// What is open of the resting order with this number, from the place where the book has it.
fn left_of(number: u32, book: &Book) -> u32 {
    for (rests, open) in book.number.iter().zip(&book.left) {
        if *rests == number {
            return *open;
        }
    }
    0
}

// .. and of each order of a queue; how many they are.
fn list_left(list: &mut [u32], queue: &[u32], book: &Book) -> usize
    requires { length queue.now ≤ length list.old }
    ensures { IsFront result list.new }
{
    for (open, number) in list.iter_mut().zip(queue) {
        *open = left_of(*number, book);
    }
    queue.len()
}

// The open quantities of a side in rank order, and how many they are. Every resting order takes part in the closing.
fn list_open(list: &mut [u32], session: Session, side: u8) -> usize
    requires { Sound session × (places ≤ length list.old) }
    ensures { IsFront result list.new }
{
    let mut queue = [0u32; Session::QUEUE_LIST];
    let r = queue_of(session, side, Auction::CLOSING, &mut queue);
    let count = r.count as usize;
    list_left(list, &queue[..count], &session.book)
}

// The filled fronts of the resting orders.
pub(crate) fn front_lines(rt: &impl Print, page: &mut Page, session: Session)
    requires { Sound session }
{
    let mut buys = [0u32; Place::COUNT];
    let mut sells = [0u32; Place::COUNT];
    let bids = list_open(&mut buys, session, Side::BUY);
    let asks = list_open(&mut sells, session, Side::SELL);
    let open = Open {
        buys: &buys[..bids],
        sells: &sells[..asks],
    };
    front_lines_with(rt, page, open);
}

// A front of the buys alone, whatever the lists hold.
fn long_line<'a>(rt: &impl Print, page: &mut Page, buys: &'a [u64], sells: &'a [u64]) {
    let r = front_of(buys, sells, Side::BUY, ONES_TOTAL);
    let numbers = [u64::from(r.answer), r.length as u64];
    put_line(rt, page, b"long", &numbers);
}

// Lists of as many ones as each may have, and either list with one more, which is refused.
pub(crate) fn long_lines(rt: &impl Print, page: &mut Page) {
    let full = [1u64; Place::COUNT];
    let long = [1u64; Place::COUNT + 1];
    long_line(rt, page, &full, &full);
    long_line(rt, page, &long, &full[..0]);
    long_line(rt, page, &full[..0], &long);
}
