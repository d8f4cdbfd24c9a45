// The lines of theoretical answers and of ranked queues (01 "Outcomes"). A side and an auction are 1 or 2; each is asked for with 0 and 3 too,
// which are refused.
ghost use Rattle.std.specs.Prelude.{◌≤◌, length};
ghost use Rattle.feed.specs.HeldBytes.{IsFront};
ghost use Rattle.session.specs.Sound.{Sound};

use crate::Page;
use calls::{Queued, Session};
use shown::{put_bytes, put_line, put_numbers};
use terms::Auction;

// The numbers that are asked with: 0 to 3.
pub(crate) const ASKED: u8 = 4;

// What an auction would answer at this moment.
fn theoretical_line(rt: &impl Print, page: &mut Page, session: Session, auction: u8)
    requires { Sound session }
{
    let r = calls::theoretical(session, auction);
    let result = r.result;
    let numbers = [
        u64::from(auction),
        u64::from(r.answer),
        u64::from(result.outcome),
        u64::from(result.price),
        result.quantity,
        u64::from(result.count),
    ];
    put_line(rt, page, b"theoretical", &numbers);
}

// .. of each auction.
pub(crate) fn theoretical_lines(rt: &impl Print, page: &mut Page, session: Session)
    requires { Sound session }
{
    for auction in 0..ASKED {
        theoretical_line(rt, page, session, auction);
    }
}

// A ranked queue. Its orders are never more than the list has numbers, so that they are a part of it.
pub(crate) fn queue_of(session: Session, side: u8, auction: u8, list: &mut [u32]) -> Queued
    requires { Sound session }
    ensures { IsFront result.count list.new }
{
    calls::ranked(session, side, auction, list)
}

// A ranked queue's answer and its order numbers, best first.
fn ranked_line(rt: &impl Print, page: &mut Page, session: Session, side: u8, auction: u8)
    requires { Sound session }
{
    let mut queue = [0u32; Session::QUEUE_LIST];
    let r = queue_of(session, side, auction, &mut queue);
    let count = r.count as usize;
    let numbers = [side, auction, r.answer].map(u64::from);
    put_bytes(rt, page, b"ranked");
    put_numbers(rt, page, &numbers);
    put_numbers(rt, page, &[r.count]);
    put_numbers(rt, page, &queue[..count]);
    put_bytes(rt, page, b"\n");
}

// .. of each side for each auction.
pub(crate) fn ranked_lines(rt: &impl Print, page: &mut Page, session: Session)
    requires { Sound session }
{
    for side in 0..ASKED {
        for auction in 0..ASKED {
            ranked_line(rt, page, session, side, auction);
        }
    }
}

// A ranked queue asked with a list that is one number too short (01 "Refusals by number", 12).
fn short_line(rt: &impl Print, page: &mut Page, session: Session, side: u8)
    requires { Sound session }
{
    let mut list = [0u32; Session::QUEUE_LIST - 1];
    let r = calls::ranked(session, side, Auction::OPENING, &mut list);
    let numbers = [u64::from(side), u64::from(r.answer), u64::from(r.count)];
    put_line(rt, page, b"short", &numbers);
}

// .. of each side.
pub(crate) fn short_lines(rt: &impl Print, page: &mut Page, session: Session)
    requires { Sound session }
{
    for side in 0..ASKED {
        short_line(rt, page, session, side);
    }
}
