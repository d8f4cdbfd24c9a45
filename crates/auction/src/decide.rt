// Which outcome an auction has: 01 "Outcomes", in its order.
ghost use Rattle.std.specs.Prelude.{◌≡◌};
ghost use Rattle.auction.specs.Outcome.{exceeds, reaches};
ghost use Rattle.auction.specs.Decided.{outcome_from};

use crate::{Held, Outcome};
use price::Found;
use terms::{DelayThreshold, product};

// |price − reference| × 10,000 ≥ threshold × reference
fn reaches(threshold: u16, reference: u32, price: u32) -> bool
    ensures { result ≡ reaches threshold reference price }
{
    let away = u64::from(price.abs_diff(reference));
    product(u32::from(threshold), reference) <= away * DelayThreshold::WHOLE
}

// Non Opening: the unlimited quantity on either side exceeds what can be executed.
fn exceeds(most: u64, unlimited_buys: u64, unlimited_sells: u64) -> bool
    ensures { result ≡ exceeds most unlimited_buys unlimited_sells }
{
    (most < unlimited_buys) | (most < unlimited_sells)
}

// An auction that may be prevented has Non Opening first, one that may be delayed Delayed Opening next.
pub fn outcome_of(
    held: Held,
    threshold: u16,
    reference: u32,
    found: Found,
    unlimited_buys: u64,
    unlimited_sells: u64,
) -> Outcome
    ensures { result ≡ outcome_from held threshold reference found unlimited_buys unlimited_sells }
{
    if held.preventable & exceeds(found.most, unlimited_buys, unlimited_sells) {
        return Outcome::NonOpening;
    }
    if found.most == 0 {
        return Outcome::NoTrade;
    }
    if held.delayable && reaches(threshold, reference, found.price) {
        return Outcome::Delayed {
            price: found.price,
            quantity: found.most,
        };
    }
    Outcome::Traded {
        price: found.price,
        quantity: found.most,
    }
}
