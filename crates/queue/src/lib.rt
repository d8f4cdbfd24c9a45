// The queue: who takes part, and at what rank (01 "Who takes part, and at what rank").
#![tactic(auto)]

mod listed;
mod ranks;

pub use listed::list_numbers;
pub use ranks::{Queues, both_ranked, place_of_rank, rank_bound, ranked};
