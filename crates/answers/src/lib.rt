// The auction. Its promise is one equation: everything that it returns, the session after it and the lent list (A1).
#![tactic(auto)]

ghost use Rattle.std.specs.Prelude.{◌≡◌};
ghost use Rattle.session.specs.Sound.{Sound};
ghost use Rattle.answers.specs.Auctions.{auction_leaves, auctioned};

use courses::{
    AuctionAnswer, Course, Standing, answer_of, planned, price_of, quantity_of, result_of,
    standing_after,
};
use session::Session;
use terms::Place;

// What the call returns, `S` as in `entries`.
#[derive(Clone, Copy)]
pub struct Auctioned<S> {
    // 0, or the refusal's number: the promises and A4 speak of numbers.
    pub answer: u8,
    pub result: AuctionAnswer,
    pub session: S,
}

// Auction: refusals 1, 2, 4, 12. The trades go to the list, four numbers each, from its front. The session is changed in place
// and leaves by one way out: with two, or by value to another function, the stack would hold it twice.
pub fn auction(mut session: Session, which: u8, list: &mut [u32]) -> Auctioned<Session>
    requires { Sound session }
    ensures { auction_leaves result list.new ≡ auctioned session which list.old }
{
    let before = Standing {
        phase: session.phase,
        delayed: session.delayed,
        reference: session.reference,
    };
    let mut ranks = [0u64; Place::COUNT];
    let plan = planned(
        which,
        list.len(),
        before,
        session.parameters.threshold,
        &session.book,
        &mut ranks,
    );
    let mut count = 0;
    if let Course::TakesPlace(auction, outcome) = plan.course {
        let asks_end = plan.bids + plan.asks;
        let closed = auction::traded(
            auction,
            price_of(outcome),
            quantity_of(outcome),
            &session.book.number,
            &session.book,
            &ranks[..plan.bids],
            &ranks[plan.bids..asks_end],
            list,
        );
        session.book.settle(&closed.rests);
        count = closed.count;
    }
    let after = standing_after(plan.course, before);
    session.phase = after.phase;
    session.delayed = after.delayed;
    session.reference = after.reference;
    Auctioned {
        answer: answer_of(plan.course),
        result: result_of(plan.course, count),
        session,
    }
}
