// The checks of a quote behind the first (02 K2): those of a day order, each on the bid and then on the ask.
ghost use Rattle.std.specs.Prelude.{◌≡◌, Bool, ◌||◌};
ghost use Rattle.terms.specs.Quotes.{is_crossed, quote_order};
ghost use Rattle.terms.specs.declared.orders.Side.TheVariants.{Buy, Sell};
ghost use Rattle.refusals.specs.Checks.{first_hit};
ghost use Rattle.refusals.specs.Numbers.{number_answered};
ghost use Rattle.refusals.specs.Rows.{either_side, quote_later};
ghost use Rattle.controls.specs.Controls.{off_step, reaches_collar, reaches_most, reaches_most_at_reference};

use crate::refusal::Refusal;
use controls::{
    Phase, allows_order, has_started, off_step, reaches_collar, reaches_most,
    reaches_most_at_reference,
};
use terms::{
    CollarFactor, Number, Order, OrderValue, Parameters, Price, Quote, Side, Table, Validity,
};

// Numbers that an accepted quote takes.
pub const QUOTE_NUMBERS: u32 = 2;

// 13
fn is_crossed(q: Quote) -> bool
    ensures { result ≡ is_crossed q }
{
    q.ask.limit.number() <= q.bid.limit.number()
}

// One of a quote's two orders hits: the bid or the ask.
fn either<F: Fn(Order) -> bool>(q: Quote, hits: F) -> bool
    requires { F.IsAlwaysCallable hits }
    ensures { (bid ask : Bool) × F.post hits (quote_order q Buy) bid × F.post hits (quote_order q Sell) ask × (result ≡ (bid || ask)) }
{
    hits(q.order_on(Side::Buy)) | hits(q.order_on(Side::Sell))
}

// 5
fn either_off_step(table: Table, q: Quote) -> bool
    ensures { result ≡ either_side (λ o. off_step table o.limit) q }
{
    either(q, |o| off_step(table, o.limit))
}

// 6
fn either_reaches_collar(reference: Price, factor: CollarFactor, q: Quote) -> bool
    ensures { result ≡ either_side (λ o. reaches_collar reference factor o.limit) q }
{
    either(q, |o| reaches_collar(reference, factor, o.limit))
}

// 7
fn either_reaches_most(most: OrderValue, q: Quote) -> bool
    ensures { result ≡ either_side (λ o. reaches_most most o.quantity o.limit) q }
{
    either(q, |o| reaches_most(most, o.quantity, o.limit))
}

// 8
fn either_reaches_most_at_reference(most: OrderValue, reference: Price, q: Quote) -> bool
    ensures { result ≡ either_side (λ o. reaches_most_at_reference most o.quantity reference) q }
{
    either(
        q,
        |o| reaches_most_at_reference(most, o.quantity, reference),
    )
}

// Which refusal a quote gets, by the reference price of the controls, the last number given and whether fewer than two places are free
// once the member's old quote is gone. beyond: an entry by a thirty-third member, where the square is kept; false in a plain session (02 K5).
#[tactic(auto, unfolding(crate::specs::Checks::first_hit))]
pub fn quote_refusal(
    phase: Phase,
    p: Parameters,
    reference: Price,
    beyond: bool,
    given: u32,
    short: bool,
    q: Quote,
) -> Result<(), Refusal>
    ensures { number_answered result ≡ first_hit (quote_later phase p reference beyond given short q) }
{
    Refusal::Crossed.when(is_crossed(q))?;
    Refusal::NotStarted.when(!has_started(phase))?;
    Refusal::PhaseForbids.when(!allows_order(phase, Validity::Day))?;
    Refusal::OffStep.when(either_off_step(p.table, q))?;
    Refusal::ReachesCollar.when(either_reaches_collar(reference, p.factor, q))?;
    Refusal::ReachesMost.when(either_reaches_most(p.most, q))?;
    let by_reference = either_reaches_most_at_reference(p.most, reference, q);
    Refusal::ReachesMostAtReference.when(by_reference)?;
    Refusal::MembersEntered.when(beyond)?;
    Refusal::NumbersGiven.when(Number::MAX - QUOTE_NUMBERS < given)?;
    Refusal::PlacesTaken.when(short)
}
