// An auction as a whole, below the session: its outcome, and what it does to the book and to the lent list. Queues are given by their ranks,
// best first.
ghost use Rattle.std.specs.Prelude.{◌≡◌, ◌++◌, ◌+◌, ◌*◌, ◌≤◌, length, take, drop};
ghost use Rattle.trades.specs.Written.{quadruples};
ghost use Rattle.auction.specs.Trading.{ranks_in, shares_in, outcome_in, trades_in, rests_in};
ghost use Rattle.terms.specs.Bounds.{places};
ghost use Rattle.terms.specs.declared.orders.{Side.TheVariants.Buy, Side.TheVariants.Sell};

use crate::after::end_rests;
use crate::decide::outcome_of;
use crate::{Held, Outcome};
use book::Book;
use price::RankedQueue;
use queue::Queues;
use terms::{Auction, Limit, Place, Side};
use trades::{Filled, pair};

// The outcome at a moment, and how many take part on each side.
#[derive(Clone, Copy)]
pub struct View {
    pub outcome: Outcome,
    pub bids: usize,
    pub asks: usize,
}

// What rests at each place after an auction, and how many trades there were.
#[derive(Clone, Copy)]
pub struct Closed {
    pub rests: [u32; Place::COUNT],
    pub count: u32,
}

// The outcome at this moment. The ranks of both sides go to the list, those of the buys first.
pub fn outlook(
    ranks: &mut [u64],
    auction: Auction,
    held: Held,
    threshold: u16,
    reference: u32,
    book: &Book,
) -> View
    requires { places ≤ length ranks.old }
    ensures { (result.outcome ≡ outcome_in held threshold reference book.now.limit book.now.left (ranks_in auction book.now.side book.now.validity book.now.limit book.now.number Buy) (ranks_in auction book.now.side book.now.validity book.now.limit book.now.number Sell))
        × (result.bids + result.asks ≤ places)
        × (take result.bids ranks.new ≡ ranks_in auction book.now.side book.now.validity book.now.limit book.now.number Buy)
        × (take result.asks (drop result.bids ranks.new) ≡ ranks_in auction book.now.side book.now.validity book.now.limit book.now.number Sell) }
{
    let Queues { bids, asks } = queue::both_ranked(ranks, auction, book);
    let both = &ranks[..];
    let buys = RankedQueue {
        side: Side::Buy,
        ranks: &both[..bids],
        book,
    };
    let sells = RankedQueue {
        side: Side::Sell,
        ranks: &both[bids..bids + asks],
        book,
    };
    let found = price::searched(reference, buys, sells);
    let unlimited_buys = buys.offer(Limit::UNLIMITED);
    let unlimited_sells = sells.offer(Limit::UNLIMITED);
    let outcome = outcome_of(
        held,
        threshold,
        reference,
        found,
        unlimited_buys,
        unlimited_sells,
    );
    View {
        outcome,
        bids,
        asks,
    }
}

// What the orders of a queue get of a quantity; the shares go to the room that is lent.
fn filled<'a>(
    quantity: u64,
    ranks: &'a [u64],
    lefts: &'a [u32; Place::COUNT],
    room: &'a mut [u32; Place::COUNT],
) -> Filled<'a>
    requires { length ranks.now ≤ places }
    ensures { (result.ranks.now ≡ ranks.now) × (result.shares.now ≡ shares_in quantity lefts.now ranks.now) }
{
    let count = fills::share_out(quantity, ranks, lefts, room);
    Filled {
        ranks,
        shares: &room[..count],
    }
}

// How many trades a quantity makes.
pub fn count_trades<'a>(quantity: u64, book: &'a Book, buys: &'a [u64], sells: &'a [u64]) -> u32
    requires { (length buys.now ≤ places) × (length sells.now ≤ places) }
    ensures { result ≡ length (trades_in quantity book.now.number book.now.left buys.now sells.now) }
{
    let mut bought = [0u32; Place::COUNT];
    let mut sold = [0u32; Place::COUNT];
    let bids = filled(quantity, buys, &book.left, &mut bought);
    let asks = filled(quantity, sells, &book.left, &mut sold);
    let mut unwritten = [0u32; 1];
    pair(&mut unwritten, 0, &book.number, &bids, &asks) as u32
}

// The trades of a quantity at a price, written to the list with the numbers that the orders go by there, and what rests after them.
pub fn traded<'a>(
    auction: Auction,
    price: u32,
    quantity: u64,
    numbers: &'a [u32; Place::COUNT],
    book: &'a Book,
    buys: &'a [u64],
    sells: &'a [u64],
    list: &mut [u32],
) -> Closed
    requires { (length buys.now ≤ places) × (length sells.now ≤ places) }
    ensures { (result.count ≡ length (trades_in quantity numbers.now book.now.left buys.now sells.now))
        × (result.rests ≡ rests_in auction quantity book.now.validity book.now.left buys.now sells.now)
        × (4 * result.count ≤ length list.old → list.new ≡ quadruples price (trades_in quantity numbers.now book.now.left buys.now sells.now) ++ drop (4 * result.count) list.old) }
{
    let mut bought = [0u32; Place::COUNT];
    let mut sold = [0u32; Place::COUNT];
    let bids = filled(quantity, buys, &book.left, &mut bought);
    let asks = filled(quantity, sells, &book.left, &mut sold);
    let count = pair(list, price, numbers, &bids, &asks);
    let mut rests = book.left;
    fills::lessen(&mut rests, bids.ranks, bids.shares);
    fills::lessen(&mut rests, asks.ranks, asks.shares);
    end_rests(&mut rests, auction, &book.validity);
    Closed {
        rests,
        count: count as u32,
    }
}
