// Quotes in the book: where the sides of a member's quote stand, and the columns with another quote in its stead (02 K2).
#![tactic(auto)]

mod hints;
mod sides;

pub use hints::{QUOTE_HINTS, quote_hint, quote_hint_all, quote_place_by_hint};
pub use sides::{quote_place, requote, requote_column, requote_words};

// The places of a quote's two sides; 512 where one rests nowhere.
#[derive(Clone, Copy)]
pub struct Pair {
    pub bid: usize,
    pub ask: usize,
}
