// The trades: the two queues' shares paired from the front, each trade the smaller of the two (01 "Outcomes").
ghost use Rattle.std.specs.Prelude.{◌&&◌, ◌≡◌, ◌∷◌, [], ◌++◌, ◌+◌, ◌*◌, ◌<◌, ◌≤◌, ltb, length, get_or, drop};
ghost use Rattle.terms.specs.Bounds.{places};
ghost use Rattle.trades.specs.Written.{quadruples, wrote};
ghost use Rattle.queue.specs.RankNumbers.{along};
ghost use Rattle.trades.specs.OverShares.{advanced_to, paired_shares};

use crate::Trade;
use terms::Place;

// The ranks of a queue's orders, and the shares of a total that the first of them get.
#[derive(Clone, Copy)]
pub struct Filled<'a> {
    pub ranks: &'a [u64],
    pub shares: &'a [u32],
    pub ghost covered: { length shares.now ≤ length ranks.now },
}

// Where a queue is: the share at its front, and what is left of it.
#[derive(Clone, Copy)]
pub struct Front {
    pub at: usize,
    pub left: u32,
}

// A share; 0 past the end.
fn share_at(shares: &[u32], i: usize) -> u32
    ensures { result ≡ get_or shares.now i 0 }
{
    shares.get(i).copied().unwrap_or(0)
}

// The front after q of it is traded: the next share where nothing is left.
fn advanced(f: Front, q: u32, shares: &[u32]) -> Front
    requires { (f.at < length shares.now) × (q ≤ f.left) }
    ensures { result ≡ advanced_to shares.now q f }
{
    if q == f.left {
        let at = f.at + 1;
        let left = share_at(shares, at);
        return Front { at, left };
    }
    Front {
        at: f.at,
        left: f.left - q,
    }
}

// A trade's four numbers, where the list has room for them.
fn write_trade(list: &mut [u32], k: usize, buy: u32, sell: u32, quantity: u32, price: u32)
    requires { k < 2 * places }
    ensures { list.new ≡ wrote k (buy ∷ sell ∷ quantity ∷ price ∷ []) list.old }
{
    let at = k * Trade::NUMBERS;
    if at + Trade::NUMBERS <= list.len() {
        list[at] = buy;
        list[at + 1] = sell;
        list[at + 2] = quantity;
        list[at + 3] = price;
    }
}

// The number of a queue's order.
fn number_at<'a>(numbers: &'a [u32; Place::COUNT], ranks: &'a [u64], i: usize) -> u32
    requires { i < length ranks.now }
    ensures { result ≡ get_or (along numbers.now ranks.now) i 0 }
{
    let place = queue::place_of_rank(ranks[i]);
    numbers[place]
}

// Neither queue is at its end.
fn going(b: usize, bought: usize, s: usize, sold: usize) -> bool
    ensures { result ≡ (ltb b bought && ltb s sold) }
{
    (b < bought) & (s < sold)
}

// The trades of two queues, written from the front of a list as far as it has room; how many. The fronts move each at its own pace, so that
// no range and no pair of iterators runs over them.
pub fn pair(
    list: &mut [u32],
    price: u32,
    numbers: &[u32; Place::COUNT],
    bids: &Filled,
    asks: &Filled,
) -> usize
    requires { length bids.now.shares.now + length asks.now.shares.now ≤ 2 * places }
    ensures { (result ≡ length (paired_shares numbers.now bids.now.ranks.now bids.now.shares.now asks.now.ranks.now asks.now.shares.now))
        × (4 * result ≤ length list.old → list.new ≡ quadruples price (paired_shares numbers.now bids.now.ranks.now bids.now.shares.now asks.now.ranks.now asks.now.shares.now) ++ drop (4 * result) list.old) }
{
    let mut b = Front {
        at: 0,
        left: share_at(bids.shares, 0),
    };
    let mut s = Front {
        at: 0,
        left: share_at(asks.shares, 0),
    };
    let mut k: usize = 0;
    while going(b.at, bids.shares.len(), s.at, asks.shares.len()) {
        let q = b.left.min(s.left);
        let buy = number_at(numbers, bids.ranks, b.at);
        let sell = number_at(numbers, asks.ranks, s.at);
        write_trade(list, k, buy, sell, q, price);
        b = advanced(b, q, bids.shares);
        s = advanced(s, q, asks.shares);
        k += 1;
    }
    k
}
