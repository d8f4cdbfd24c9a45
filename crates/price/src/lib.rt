// The price: interest of a side at a price, executable quantity, candidates and the chain (01 "The price").
#![tactic(auto)]

mod front;
mod search;
mod weigh;

pub use front::RankedQueue;
pub use search::{Found, searched};
