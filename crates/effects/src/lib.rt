// What an order, a deletion and a quote change, found from the parts of a session that decide it: a refusal, or a change that whoever holds a session
// stores in it.
#![tactic(auto)]

mod quoting;

ghost use Rattle.std.specs.Prelude.{◌≡◌};
ghost use Rattle.refusals.specs.Numbers.{numbered_answer};
ghost use Rattle.effects.specs.Effects.{order_effect, delete_effect};

use book::Values;
use controls::Phase;
use places::{WORD_PLACES, WORDS, with_bit, without_bit};
pub use quoting::{QuoteChange, quote_effect};
use refusals::Refusal;
use terms::{Entry, Member, Number, Order, Parameters, Place, Price};

// The last number given, a word of the places, and the values at a place.
#[derive(Clone, Copy)]
pub struct Change {
    pub given: u32,
    pub place: usize,
    pub word: u64,
    pub values: Values,
}

// Order: refusals 1, 2, 4, 5, 6, 7, 8, 16, 9, 10. An accepted order takes the next number and the lowest free place.
// beyond: an entry by a thirty-third member, where the square is kept; false in a plain session (02 K5).
pub fn order_effect(
    phase: Phase,
    parameters: Parameters,
    reference: Price,
    beyond: bool,
    given: u32,
    taken: &[u64; WORDS],
    e: Entry,
) -> Result<Change, Refusal>
    ensures { numbered_answer result ≡ order_effect phase parameters reference beyond given taken.now e }
{
    let order = Order::try_from(e)?;
    let place = places::lowest_free(taken);
    let left = Place::holds(place);
    refusals::order_refusal(phase, parameters, reference, beyond, given, !left, order)?;
    let number = given + 1;
    let word = with_bit(taken[place / WORD_PLACES], place % WORD_PLACES);
    Ok(Change {
        given: number,
        place,
        word,
        values: book::values_of(number, false, order),
    })
}

// Delete: refusals 1, 2, 11. The order asked for stands at the place, or nowhere; its place is free at once.
pub fn delete_effect(
    phase: Phase,
    given: u32,
    taken: &[u64; WORDS],
    place: usize,
    number: u32,
    member: u16,
) -> Result<Change, Refusal>
    ensures { numbered_answer result ≡ delete_effect phase given taken.now place number member }
{
    Number::try_from(number)?;
    Member::try_from(member)?;
    refusals::delete_refusal(phase, place)?;
    let word = without_bit(taken[place / WORD_PLACES], place % WORD_PLACES);
    Ok(Change {
        given,
        place,
        word,
        values: Values::empty(),
    })
}
