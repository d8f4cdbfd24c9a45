// Trades: the two sides' fills paired from the front, and how they stand in a lent list (01 "Outcomes").
#![tactic(auto)]

mod pairing;

pub use pairing::{Filled, pair};
use terms::Place;

// A trade at the auction price; buy and sell are the orders' numbers.
#[derive(Clone, Copy)]
pub struct Trade {
    pub buy: u32,
    pub sell: u32,
    pub quantity: u32,
}

impl Trade {
    // Of one auction: one fewer than orders.
    pub const MOST: usize = Place::COUNT - 1;

    // Numbers of the lent list for each: buy number, sell number, quantity, price.
    pub const NUMBERS: usize = 4;

    // .. and so of the list.
    pub const LIST: usize = Trade::NUMBERS * Trade::MOST;
}
