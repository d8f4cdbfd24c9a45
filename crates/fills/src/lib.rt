// Fills: how a total is filled from the front of a queue, and which front part of a list it covers (01 "Outcomes").
#![tactic(auto)]

mod front;
mod shares;

pub use front::front_length;
pub use shares::{left_at, lessen, share_out};
