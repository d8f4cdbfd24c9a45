// Phases: where an auction leads, and what a phase allows (01 "Phases", and the phase rules of "Refusals by number").
ghost use Rattle.std.specs.Prelude.{◌≡◌};
ghost use Rattle.controls.specs.Phases.{has_started, allows_order, allows_auction, phase_after};

use terms::{Auction, Validity};

#[derive(Clone, Copy, Debug, PartialEq, Eq)]
pub enum Phase {
    Fresh,
    PreOpening,
    Day,
    Closed,
}

// An opening auction leads to day, a closing auction to closed.
pub fn phase_after(auction: Auction) -> Phase
    ensures { result ≡ phase_after auction }
{
    match auction {
        Auction::Opening => Phase::Day,
        Auction::Closing => Phase::Closed,
    }
}

pub fn has_started(phase: Phase) -> bool
    ensures { result ≡ has_started phase }
{
    phase != Phase::Fresh
}

// Orders are refused when closed; validity 1 only in pre-opening.
pub fn allows_order(phase: Phase, validity: Validity) -> bool
    ensures { result ≡ allows_order phase validity }
{
    (phase == Phase::PreOpening) | ((phase == Phase::Day) & (validity != Validity::AtOpening))
}

// An opening auction only in pre-opening, a closing auction only in day.
pub fn allows_auction(phase: Phase, auction: Auction) -> bool
    ensures { result ≡ allows_auction phase auction }
{
    match auction {
        Auction::Opening => phase == Phase::PreOpening,
        Auction::Closing => phase == Phase::Day,
    }
}
