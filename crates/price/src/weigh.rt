// Weighing: the candidates so far against one more.
ghost use Rattle.std.specs.Prelude.{◌≡◌, cond, ltb};
ghost use Rattle.lists.specs.Sums.{apart};
ghost use Rattle.price.specs.Search.{first_weighed, joined, weighed};

// What the candidates so far come to: the highest executable quantity, the smallest difference among those that have it, and
// of those that have both the highest, the lowest and the one nearest to the reference price.
#[derive(Clone, Copy)]
pub struct Weighed {
    pub most: u64,
    pub least: u64,
    pub high: u32,
    pub low: u32,
    pub near: u32,
}

// Of two prices the second, unless the first is nearer to the reference price.
fn nearer(reference: u32, a: u32, b: u32) -> u32
    ensures { result ≡ cond (ltb (apart reference a) (apart reference b)) a b }
{
    if reference.abs_diff(a) < reference.abs_diff(b) {
        a
    } else {
        b
    }
}

// One candidate alone.
pub fn first(price: u32, most: u64, least: u64) -> Weighed
    ensures { result ≡ first_weighed price most least }
{
    Weighed {
        most,
        least,
        high: price,
        low: price,
        near: price,
    }
}

// One more with the same executable quantity and difference.
fn joined(w: Weighed, reference: u32, price: u32) -> Weighed
    ensures { result ≡ joined reference price w }
{
    Weighed {
        most: w.most,
        least: w.least,
        high: w.high.max(price),
        low: w.low.min(price),
        near: nearer(reference, price, w.near),
    }
}

// One more candidate, with demand and supply at it: executable is the smaller of the two.
pub fn weigh(w: Weighed, reference: u32, price: u32, demand: u64, supply: u64) -> Weighed
    ensures { result ≡ weighed reference price demand supply w }
{
    let most = demand.min(supply);
    let least = demand.abs_diff(supply);
    if (w.most < most) | ((most == w.most) & (least < w.least)) {
        return first(price, most, least);
    }
    if (most == w.most) & (least == w.least) {
        return joined(w, reference, price);
    }
    w
}
