// The auction of a session that keeps the square (02 K5): the session's auction, whose trades are added to their cells before the book is settled. Its promise
// is one equation: everything that it returns, the desk after it and the lent list.
#![tactic(auto)]

ghost use Rattle.std.specs.Prelude.{◌≡◌};
ghost use Rattle.desk.specs.Sound.{SoundDesk};
ghost use Rattle.answers.specs.Auctions.{auction_leaves};
ghost use Rattle.desk_auction.specs.Auctions.{auctioned};

use answers::Auctioned;
use courses::{
    Course, Standing, answer_of, planned, price_of, quantity_of, result_of, standing_after,
};
use desk::Desk;
use squares::{clear_trades, place_column};
use terms::Place;

// Auction: refusals 1, 2, 4, 12. The trades are paired by places, so that their rows are at hand, and told by their orders' numbers once they are
// added. The desk is changed in place as in `answers`: by value it would stand on the stack once more.
// Its twin there has no cells and names the trades by a column of the book that it settles: one function for both, by a copy of that column and a
// closure for the cells, would be no plainer.
pub fn auction(mut desk: Desk, which: u8, list: &mut [u32]) -> Auctioned<Desk>
    requires { SoundDesk desk }
    ensures { auction_leaves result list.new ≡ auctioned desk which list.old }
{
    let before = Standing {
        phase: desk.session.phase,
        delayed: desk.session.delayed,
        reference: desk.session.reference,
    };
    let mut ranks = [0u64; Place::COUNT];
    let plan = planned(
        which,
        list.len(),
        before,
        desk.session.parameters.threshold,
        &desk.session.book,
        &mut ranks,
    );
    let mut count = 0;
    if let Course::TakesPlace(auction, outcome) = plan.course {
        let asks_end = plan.bids + plan.asks;
        let closed = auction::traded(
            auction,
            price_of(outcome),
            quantity_of(outcome),
            &place_column(),
            &desk.session.book,
            &ranks[..plan.bids],
            &ranks[plan.bids..asks_end],
            list,
        );
        count = closed.count;
        clear_trades(
            &mut desk.totals,
            list,
            count as usize,
            &desk.rows,
            &desk.session.book.number,
        );
        desk.session.book.settle(&closed.rests);
    }
    let after = standing_after(plan.course, before);
    desk.session.phase = after.phase;
    desk.session.delayed = after.delayed;
    desk.session.reference = after.reference;
    Auctioned {
        answer: answer_of(plan.course),
        result: result_of(plan.course, count),
        session: desk,
    }
}
