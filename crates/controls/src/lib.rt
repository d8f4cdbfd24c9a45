// In which phase a call is allowed, and the controls of an entry (01 "Phases" and "Refusals by number").
#![tactic(auto)]

mod entry_controls;
mod phases;

pub use entry_controls::{off_step, reaches_collar, reaches_most, reaches_most_at_reference};
pub use phases::{Phase, allows_auction, allows_order, has_started, phase_after};
