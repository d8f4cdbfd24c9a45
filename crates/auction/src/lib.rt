// The auction: outcome, trades and what is left (01 "Outcomes").
#![tactic(auto)]

mod after;
mod decide;
mod trading;

pub use trading::{Closed, View, count_trades, outlook, traded};

// What may hold an auction back: unlimited orders that stay unfilled may prevent it, a price that reaches the threshold may delay it.
#[derive(Clone, Copy)]
pub struct Held {
    pub preventable: bool,
    pub delayable: bool,
}

// The outcome of an auction, with its price and quantity where it has them.
#[derive(Clone, Copy)]
pub enum Outcome {
    Traded { price: u32, quantity: u64 },
    NoTrade,
    NonOpening,
    Delayed { price: u32, quantity: u64 },
}
