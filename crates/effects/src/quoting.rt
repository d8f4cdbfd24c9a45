// What a quote changes (02 K2).
ghost use Rattle.std.specs.Prelude.{◌≡◌};
ghost use Rattle.refusals.specs.Numbers.{numbered_answer};
ghost use Rattle.effects.specs.QuoteEffects.{fresh_pair, quote_effect};

use book::Values;
use controls::Phase;
use places::{WORDS, lowest_free, mark, unmark};
use quotes::Pair;
use refusals::{QUOTE_NUMBERS, Refusal};
use terms::{Parameters, Place, Price, Quote, QuoteEntry, Side};

// The last number given, where the old sides stood, the new ones, and where they stand. It begins as `Change` is laid out, so that
// where either may come both travel in registers.
#[derive(Clone, Copy)]
pub struct QuoteChange {
    pub given: u32,
    pub old: Pair,
    pub bid: Values,
    pub ask: Values,
    pub fresh: Pair,
}

// The two lowest places that are free once the old sides are gone; 512 where there are fewer.
fn fresh_pair(taken: &[u64; WORDS], old: Pair) -> Pair
    ensures { result ≡ fresh_pair taken.now old }
{
    let mut words = *taken;
    unmark(&mut words, old.bid);
    unmark(&mut words, old.ask);
    let bid = lowest_free(&words);
    mark(&mut words, bid);
    let ask = lowest_free(&words);
    Pair { bid, ask }
}

// Quote: refusals 1, 13, 2, 4, 5, 6, 7, 8, 16, 9, 10, by where the sides of the member's old quote stand. The bid takes the first of two new
// numbers and places, the ask the second. beyond: an entry by a thirty-third member, where the square is kept; false in a plain session (02 K5).
pub fn quote_effect(
    phase: Phase,
    parameters: Parameters,
    reference: Price,
    beyond: bool,
    given: u32,
    taken: &[u64; WORDS],
    old: Pair,
    e: QuoteEntry,
) -> Result<QuoteChange, Refusal>
    ensures { numbered_answer result ≡ quote_effect phase parameters reference beyond given taken.now old e }
{
    let quote = Quote::try_from(e)?;
    let fresh = fresh_pair(taken, old);
    let left = Place::holds(fresh.ask);
    refusals::quote_refusal(phase, parameters, reference, beyond, given, !left, quote)?;
    let bid = book::values_of(given + 1, true, quote.order_on(Side::Buy));
    let ask = book::values_of(given + QUOTE_NUMBERS, true, quote.order_on(Side::Sell));
    Ok(QuoteChange {
        given: given + QUOTE_NUMBERS,
        old,
        bid,
        ask,
        fresh,
    })
}
