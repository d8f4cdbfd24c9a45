// Refusals: which number a call answers (01 "Refusals by number").
#![tactic(auto)]

mod checks;
mod quote_checks;
mod refusal;

pub use checks::{
    auction_refusal, delete_refusal, order_refusal, ranked_refusal, theoretical_refusal,
};
pub use quote_checks::{QUOTE_NUMBERS, quote_refusal};
pub use refusal::Refusal;
