// Shares along a ranked queue: what its orders have open, and what each gets of a total.
ghost use Rattle.std.specs.Prelude.{◌≡◌, ◌≤◌, min, length, get_or, take};
ghost use Rattle.queue.specs.RankNumbers.{place_of_rank, along};
ghost use Rattle.fills.specs.Shares.{shares_of, lessened};
ghost use Rattle.terms.specs.Bounds.{places};

use queue::place_of_rank;
use terms::Place;

// What the order of a rank has open.
pub fn left_at(lefts: &[u32; Place::COUNT], r: u64) -> u32
    ensures { result ≡ get_or lefts.now (place_of_rank r) 0 }
{
    lefts[place_of_rank(r)]
}

// What an order gets of a total: all that it has open, or what there is.
fn share_of(total: u64, left: u32) -> u32
    ensures { result ≡ min total left }
{
    total.min(u64::from(left)) as u32
}

// What the orders of a queue get of a total, the first of it first, from the front of a list; how many get anything.
pub fn share_out<'a>(
    total: u64,
    ranks: &'a [u64],
    lefts: &'a [u32; Place::COUNT],
    list: &mut [u32],
) -> usize
    requires { length ranks.now ≤ length list.old }
    ensures { (result ≤ length ranks.now) × (take result list.new ≡ shares_of total (along lefts.now ranks.now)) }
{
    let mut rest = total;
    for (i, &rank) in ranks.iter().enumerate() {
        if rest == 0 {
            return i;
        }
        let share = share_of(rest, left_at(lefts, rank));
        list[i] = share;
        rest -= u64::from(share);
    }
    ranks.len()
}

// The open quantities less the shares, never below nothing.
pub fn lessen<'a>(lefts: &mut [u32], ranks: &'a [u64], shares: &'a [u32])
    requires { (places ≤ length lefts.old) × (length shares.now ≤ length ranks.now) }
    ensures { lefts.new ≡ lessened ranks.now shares.now lefts.old }
{
    for (&rank, &share) in ranks.iter().zip(shares) {
        let place = place_of_rank(rank);
        lefts[place] = lefts[place].saturating_sub(share);
    }
}
