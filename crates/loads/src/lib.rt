// What the programs that count put into a book: the start of their session, and the orders and quotes that fill it. None is refused for what it says
// (01 "Refusals by number", 1, 5 to 8, 13), so what is counted is what a session does that takes them.
#![tactic(auto)]

mod load;
mod orders;

ghost use Rattle.std.specs.Prelude.{◌≡◌, ◌≤◌, T};
ghost use Rattle.terms.specs.Kinds.{is_member, is_quantity};
ghost use Rattle.terms.specs.Parameters.{is_start};
ghost use Rattle.session.specs.Sound.{Sound};
ghost use Rattle.controls.specs.declared.phases.{Phase.TheVariants.PreOpening};
ghost use Rattle.loads.specs.Loads.{can_ask, takes_order, takes_quote};

pub use load::Load;
pub use orders::Orders;
use orders::day_order;
use session::Session;
use terms::{Entry, OneStep, QuoteEntry, Side, SideEntry, Start};

pub const REFERENCE: u32 = 100_000;

const STEP: u32 = 100;

pub fn start_at(reference: u32, threshold: u16) -> Start
    requires { T (can_ask reference threshold) }
    ensures in_range { T (is_start result) }
    ensures asked { (result.reference ≡ reference) × (result.threshold ≡ threshold) }
{
    let asked = OneStep {
        step: STEP,
        reference,
        factor: 9,
        threshold,
        most: 1_000_000_000_000,
    };
    asked.as_start()
}

// A session with this start, before its opening.
pub fn started(reference: u32, threshold: u16) -> Session
    requires { T (can_ask reference threshold) }
    ensures sound { Sound result }
    ensures phase { result.phase ≡ PreOpening }
{
    let fresh = Session::fresh();
    entries::start(fresh, start_at(reference, threshold)).session
}

// Quantity 10 at the reference price.
pub fn buy_of(member: u16) -> Entry
    requires { T (is_member member) }
    ensures { T (takes_order result) }
{
    day_order(member, Side::BUY, 10, REFERENCE)
}

// A bid at the reference price and an ask a step above it.
pub fn quote_of(member: u16, quantity: u32) -> QuoteEntry
    requires { T (is_member member) × T (is_quantity quantity) × (quantity ≤ 5120) }
    ensures { T (takes_quote result) }
{
    QuoteEntry {
        member,
        bid: SideEntry {
            quantity,
            limit: REFERENCE,
        },
        ask: SideEntry {
            quantity,
            limit: REFERENCE + STEP,
        },
    }
}
