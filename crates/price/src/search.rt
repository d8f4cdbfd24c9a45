// The search: the chain over all candidates. Every candidate is weighed against the best so far; the fronts that offer at it are
// those of the candidate before, made longer or shorter.
ghost use Rattle.std.specs.Prelude.{◌≡◌};
ghost use Rattle.queue.specs.RankNumbers.{along};
ghost use Rattle.price.specs.Below.{IsFront};
ghost use Rattle.price.specs.Search.{offered, weigh_all, found_in, searched_in};

use crate::front::{Front, RankedQueue};
use crate::weigh::{Weighed, first, weigh};
use queue::place_of_rank;
use terms::Limit;

// The highest executable quantity, and the price that the chain leaves.
#[derive(Clone, Copy)]
pub struct Found {
    pub most: u64,
    pub price: u32,
}

// The limits of a queue's orders as candidates, one after the other. Equal limits come in runs, of which the first is weighed: the
// same price again changes nothing.
fn weigh_limits<'a>(
    start: Weighed,
    reference: u32,
    queue: RankedQueue<'a>,
    buys: RankedQueue<'a>,
    sells: RankedQueue<'a>,
) -> Weighed
    ensures { result ≡ weigh_all reference (offered buys.entry.side buys.entry.book.now.left buys.entry.ranks.now) (offered sells.entry.side sells.entry.book.now.left sells.entry.ranks.now) (along queue.entry.book.now.limit queue.entry.ranks.now) start }
{
    let mut w = start;
    let mut last = Limit::UNLIMITED;
    let mut demand = Front::NOBODY;
    let mut supply = Front::NOBODY;
    for rank in queue.ranks {
        let limit = queue.book.limit[place_of_rank(*rank)];
        if (limit != Limit::UNLIMITED) & (limit != last) {
            demand = buys.front_at(limit, demand);
            supply = sells.front_at(limit, supply);
            w = weigh(w, reference, limit, demand.total, supply.total);
            last = limit;
        }
    }
    w
}

// Steps 3 and 4: demand exceeds supply at all that are left where it does at the highest, supply demand where it does at the lowest.
// The fronts are any, and move to these two.
fn chosen<'a>(
    w: Weighed,
    demand: Front,
    supply: Front,
    buys: RankedQueue<'a>,
    sells: RankedQueue<'a>,
) -> Found
    requires demand { IsFront buys.book.now.left buys.ranks.now demand.count demand.total }
    requires supply { IsFront sells.book.now.left sells.ranks.now supply.count supply.total }
    ensures { result ≡ found_in (offered buys.entry.side buys.entry.book.now.left buys.entry.ranks.now) (offered sells.entry.side sells.entry.book.now.left sells.entry.ranks.now) w }
{
    let high_demand = buys.front_at(w.high, demand);
    let high_supply = sells.front_at(w.high, supply);
    let low_demand = buys.front_at(w.low, high_demand);
    let low_supply = sells.front_at(w.low, high_supply);
    let more_demand = high_supply.total < high_demand.total;
    let more_supply = low_demand.total < low_supply.total;
    let price = if more_demand {
        w.high
    } else if more_supply {
        w.low
    } else {
        w.near
    };
    Found {
        most: w.most,
        price,
    }
}

// The candidates are the reference price and the limits of both queues.
pub fn searched<'a>(reference: u32, buys: RankedQueue<'a>, sells: RankedQueue<'a>) -> Found
    ensures { result ≡ searched_in reference (offered buys.entry.side buys.entry.book.now.left buys.entry.ranks.now) (offered sells.entry.side sells.entry.book.now.left sells.entry.ranks.now) (along buys.entry.book.now.limit buys.entry.ranks.now) (along sells.entry.book.now.limit sells.entry.ranks.now) }
{
    let demand = buys.front_at(reference, Front::NOBODY);
    let supply = sells.front_at(reference, Front::NOBODY);
    let most = demand.total.min(supply.total);
    let alone = first(reference, most, demand.total.abs_diff(supply.total));
    let bid = weigh_limits(alone, reference, buys, buys, sells);
    let all = weigh_limits(bid, reference, sells, buys, sells);
    chosen(all, demand, supply, buys, sells)
}
