// The theoretical answer: what the auction would answer at this moment, with no change (01 "Outcomes"). Its promise is one equation: everything that it
// returns (A1).
#![tactic(auto)]

ghost use Rattle.std.specs.Prelude.{◌≡◌};
ghost use Rattle.courses.specs.Answer.{answer_of};
ghost use Rattle.answers.specs.Auctions.{outcome_of};
ghost use Rattle.foresight.specs.Theoretical.{theoretical};
ghost use Rattle.foresight.specs.TheoreticalCall.{foreseen_by};
ghost use Rattle.refusals.specs.Numbers.{numbered_answer};
ghost use Rattle.session.specs.Sound.{Sound};
ghost use Rattle.session.specs.State.{part};

use auction::Outcome;
use courses::{AuctionAnswer, answer_with, held, no_answer};
use refusals::Refusal;
use session::Session;
use terms::{Auction, Place};

#[derive(Clone, Copy)]
pub struct Foreseen {
    // 0, or the refusal's number: the promises and A4 speak of numbers.
    pub answer: u8,
    pub result: AuctionAnswer,
}

// The four numbers, where it is not refused.
fn foreseen_now(session: &Session, auction: Auction) -> AuctionAnswer
    requires { Sound session.now }
    ensures { result ≡ answer_of (outcome_of session.now auction) (part session.now auction) }
{
    let mut ranks = [0u64; Place::COUNT];
    let view = auction::outlook(
        &mut ranks,
        auction,
        held(auction, session.delayed),
        session.parameters.threshold.number(),
        session.reference.number(),
        &session.book,
    );
    let asks_end = view.bids + view.asks;
    let count = match view.outcome {
        Outcome::Traded { quantity, .. } => auction::count_trades(
            quantity,
            &session.book,
            &ranks[..view.bids],
            &ranks[view.bids..asks_end],
        ),
        Outcome::NoTrade | Outcome::NonOpening | Outcome::Delayed { .. } => 0,
    };
    answer_with(view.outcome, count)
}

// .. or why it is refused: 1, 2, 4.
fn foretold(session: &Session, which: u8) -> Result<AuctionAnswer, Refusal>
    requires { Sound session.now }
    ensures { foreseen_by (numbered_answer result) ≡ theoretical session.now which }
{
    let auction = Auction::try_from(which)?;
    refusals::theoretical_refusal(session.phase, auction)?;
    Ok(foreseen_now(session, auction))
}

// Theoretical answer: refusals 1, 2, 4.
pub fn theoretical(session: Session, which: u8) -> Foreseen
    requires { Sound session }
    ensures { result ≡ theoretical session which }
{
    match foretold(&session, which) {
        Ok(result) => Foreseen { answer: 0, result },
        Err(refusal) => Foreseen {
            answer: u8::from(refusal),
            result: no_answer(),
        },
    }
}
