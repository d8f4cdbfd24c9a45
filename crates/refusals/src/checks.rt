// The checks of the calls behind the first, which is the constructors': 01 "Refusals by number", each call's in its order.
ghost use Rattle.std.specs.Prelude.{◌≡◌, not};
ghost use Rattle.terms.specs.Kinds.{is_place};
ghost use Rattle.refusals.specs.Checks.{first_hit};
ghost use Rattle.refusals.specs.Numbers.{number_answered};
ghost use Rattle.refusals.specs.Rows.{order_later, delete_later, theoretical_later, auction_later, ranked_later};

use crate::refusal::Refusal;
use controls::{
    Phase, allows_auction, allows_order, has_started, off_step, reaches_collar, reaches_most,
    reaches_most_at_reference,
};
use terms::{Auction, Number, Order, Parameters, Place, Price};
use trades::Trade;

// Which refusal an order gets, by the reference price of the controls, the last number given and whether all places are taken.
// beyond: an entry by a thirty-third member, where the square is kept; false in a plain session (02 K5).
#[tactic(auto, unfolding(crate::specs::Checks::first_hit))]
pub fn order_refusal(
    phase: Phase,
    p: Parameters,
    reference: Price,
    beyond: bool,
    given: u32,
    full: bool,
    o: Order,
) -> Result<(), Refusal>
    ensures { number_answered result ≡ first_hit (order_later phase p reference beyond given full o) }
{
    let limit = o.limit;
    let validity = o.validity;
    Refusal::NotStarted.when(!has_started(phase))?;
    Refusal::PhaseForbids.when(!allows_order(phase, validity))?;
    Refusal::OffStep.when(off_step(p.table, limit))?;
    Refusal::ReachesCollar.when(reaches_collar(reference, p.factor, limit))?;
    Refusal::ReachesMost.when(reaches_most(p.most, o.quantity, limit))?;
    Refusal::ReachesMostAtReference.when(reaches_most_at_reference(p.most, o.quantity, reference))?;
    Refusal::MembersEntered.when(beyond)?;
    Refusal::NumbersGiven.when(Number::MAX <= given)?;
    Refusal::PlacesTaken.when(full)
}

// Which refusal a deletion gets; the order asked for stands at the place, or nowhere.
#[tactic(auto, unfolding(crate::specs::Checks::first_hit))]
pub fn delete_refusal(phase: Phase, place: usize) -> Result<(), Refusal>
    ensures { number_answered result ≡ first_hit (delete_later phase (not (is_place place))) }
{
    Refusal::NotStarted.when(!has_started(phase))?;
    Refusal::NoSuchOrder.when(!Place::holds(place))
}

#[tactic(auto, unfolding(crate::specs::Checks::first_hit))]
pub fn theoretical_refusal(phase: Phase, auction: Auction) -> Result<(), Refusal>
    ensures { number_answered result ≡ first_hit (theoretical_later phase auction) }
{
    Refusal::NotStarted.when(!has_started(phase))?;
    Refusal::PhaseForbids.when(!allows_auction(phase, auction))
}

// By the length of the lent list.
#[tactic(auto, unfolding(crate::specs::Checks::first_hit))]
pub fn auction_refusal(phase: Phase, auction: Auction, size: usize) -> Result<(), Refusal>
    ensures { number_answered result ≡ first_hit (auction_later phase auction size) }
{
    theoretical_refusal(phase, auction)?;
    Refusal::TooShort.when(size < Trade::LIST)
}

#[tactic(auto, unfolding(crate::specs::Checks::first_hit))]
pub fn ranked_refusal(phase: Phase, size: usize) -> Result<(), Refusal>
    ensures { number_answered result ≡ first_hit (ranked_later phase size) }
{
    Refusal::NotStarted.when(!has_started(phase))?;
    Refusal::TooShort.when(size < Place::COUNT)
}
