// The ranked queue and the filled front. The promise of each is one equation: everything that it returns and the lent list (A1).
#![tactic(auto)]

ghost use Rattle.std.specs.Prelude.{◌≡◌, [], MatchResult};
ghost use Rattle.session.specs.Sound.{Sound};
ghost use Rattle.refusals.specs.Numbers.{refusal_number, numbered_answer};
ghost use Rattle.standings.specs.QueueCalls.{queue_by};
ghost use Rattle.standings.specs.Queues.{queue_leaves, queued, filled_front, front_answered};

use refusals::Refusal;
use session::Session;
use terms::{Auction, Place, Side};

#[derive(Clone, Copy)]
pub struct Queued {
    // 0, or the refusal's number: the promises and A4 speak of numbers.
    pub answer: u8,
    pub count: u32,
}

// How many order numbers are listed, best first from the front of the list, or why none are: 1, 2, 12.
fn listed(session: &Session, side: u8, which: u8, list: &mut [u32]) -> Result<u32, Refusal>
    requires { Sound session.now }
    ensures { queue_by (numbered_answer result) list.new ≡ queued session.now side which list.old }
{
    let side = Side::try_from(side)?;
    let auction = Auction::try_from(which)?;
    refusals::ranked_refusal(session.phase, list.len())?;
    let mut ranks = [0u64; Place::COUNT];
    let count = queue::ranked(&mut ranks, side, auction, &session.book);
    queue::list_numbers(list, &ranks[..count], &session.book.number);
    Ok(count as u32)
}

// Ranked queue: refusals 1, 2, 12. The order numbers taking part, best first, from the front of the list.
pub fn ranked(session: Session, side: u8, which: u8, list: &mut [u32]) -> Queued
    requires { Sound session }
    ensures { queue_leaves result list.new ≡ queued session side which list.old }
{
    match listed(&session, side, which, list) {
        Ok(count) => Queued { answer: 0, count },
        Err(refusal) => Queued {
            answer: u8::from(refusal),
            count: 0,
        },
    }
}

// The longest front part of the side's list whose sum is at most the total, or why there is none: 1.
fn front_of<'a>(
    buys: &'a [u64],
    sells: &'a [u64],
    side: u8,
    total: u64,
) -> Result<&'a [u64], Refusal>
    ensures { MatchResult result (λ part. front_answered 0 part.now ≡ filled_front buys.now sells.now side total) (λ r. front_answered (refusal_number r) [] ≡ filled_front buys.now sells.now side total) }
{
    let side = Side::try_from(side)?;
    let too_long = (Place::COUNT < buys.len()) | (Place::COUNT < sells.len());
    Refusal::OutOfRange.when(too_long)?;
    let list = match side {
        Side::Buy => buys,
        Side::Sell => sells,
    };
    Ok(&list[..fills::front_length(list, total)])
}

// Filled front: refusal 1. The longest front part of the side's list whose sum is at most the total; the answer's number goes to `answer`.
pub fn filled_front<'a>(
    buys: &'a [u64],
    sells: &'a [u64],
    side: u8,
    total: u64,
    answer: &mut u8,
) -> &'a [u64]
    ensures { front_answered answer.new result.now ≡ filled_front buys.now sells.now side total }
{
    match front_of(buys, sells, side, total) {
        Ok(front) => {
            *answer = 0;
            front
        }
        Err(refusal) => {
            *answer = u8::from(refusal);
            &buys[..0]
        }
    }
}
