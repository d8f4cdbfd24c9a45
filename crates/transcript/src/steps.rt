// What a record does: the call that it asks for, and its lines.
ghost use Rattle.std.specs.Prelude.{◌≡◌, ◌+◌, ◌≤◌, length};
ghost use Rattle.terms.specs.Bounds.{trade_list_length};
ghost use Rattle.records.specs.BandsRead.{BandsAt, record_in};
ghost use Rattle.refusals.specs.Numbers.{numbered_answer};
ghost use Rattle.book.specs.Hints.{Numbered};
ghost use Rattle.session.specs.Sound.{Sound};
ghost use Rattle.lines.specs.Lengths.{line_room};
ghost use Rattle.quotation.specs.QuoteCall.{old_pair};
ghost use Rattle.transcript.specs.Transcript.{auction_line, step};
ghost use Rattle.transcript.specs.Steps.{record_room, WroteStep, change_doing, quote_doing, QuotesKnown, doing_of};

use crate::{Doing, Stepped};
use book::{Book, HINTS};
use calls::AuctionAnswer;
use controls::Phase;
use effects::{Change, QuoteChange, delete_effect, order_effect, quote_effect};
use lines::{Line, Word, line_of, trade_lines};
use quotes::{Pair, QUOTE_HINTS, quote_place_by_hint};
use records::{Record, bands_from};
use refusals::Refusal;
use session::Session;
use terms::{OneStep, Parameters, Price, Side, Start};

fn change_doing(word: Word, effect: Result<Change, Refusal>) -> Doing
    ensures { result ≡ change_doing word (numbered_answer effect) }
{
    match effect {
        Err(refusal) => Doing::Refused(word, u64::from(u8::from(refusal))),
        Ok(c) => Doing::Done(word, c),
    }
}

fn quote_doing(effect: Result<QuoteChange, Refusal>) -> Doing
    ensures { result ≡ quote_doing (numbered_answer effect) }
{
    match effect {
        Err(refusal) => Doing::Refused(Word::Quote, u64::from(u8::from(refusal))),
        Ok(c) => Doing::Quoted(c),
    }
}

// Where the sides of a member's quote stand.
fn old_pair(book: &Book, bids: &[u16; QUOTE_HINTS], asks: &[u16; QUOTE_HINTS], member: u16) -> Pair
    requires { QuotesKnown book.now.quoted book.now.member book.now.side bids.now asks.now }
    ensures { result ≡ old_pair book.now.quoted book.now.member book.now.side member }
{
    let bid = quote_place_by_hint(book, bids, member, Side::BUY);
    let ask = quote_place_by_hint(book, asks, member, Side::SELL);
    Pair { bid, ask }
}

// What a record does, from the parts of the session that decide it; hints only spare a search.
pub(crate) fn doing_of(
    asked: Record,
    phase: Phase,
    parameters: Parameters,
    reference: Price,
    given: u32,
    book: &Book,
    hints: &[u16; HINTS],
    bids: &[u16; QUOTE_HINTS],
    asks: &[u16; QUOTE_HINTS],
) -> Doing
    requires { Numbered book.now.taken book.now.number given × QuotesKnown book.now.quoted book.now.member book.now.side bids.now asks.now }
    ensures { result ≡ doing_of asked phase parameters reference given book.now.taken book.now.number book.now.member book.now.quoted book.now.side }
{
    match asked {
        Record::Start(p) => Doing::Start(p),
        Record::Order(e) => change_doing(
            Word::Order,
            order_effect(phase, parameters, reference, false, given, &book.taken, e),
        ),
        Record::Delete(d) => {
            let place = book.place_by_hint(hints, given, d.number, d.member);
            change_doing(
                Word::Delete,
                delete_effect(phase, given, &book.taken, place, d.number, d.member),
            )
        }
        Record::Auction(which) => Doing::Auction(which),
        Record::Quote(e) => {
            let old = old_pair(book, bids, asks, e.member);
            quote_doing(quote_effect(
                phase,
                parameters,
                reference,
                false,
                given,
                &book.taken,
                old,
                e,
            ))
        }
        Record::Bands(_) => Doing::Bands,
    }
}

// By its table, whatever the record's kind.
fn table_written(
    session: Session,
    p: Start,
    place: u64,
    out: &mut [u8],
    at: usize,
) -> Stepped<Session>
    requires { Sound session × (at + line_room ≤ length out.old) }
    ensures { WroteStep place out.old out.new at result (step session (Record.Bands p)) }
{
    let r = calls::start(session, p);
    let end = line_of(
        out,
        at,
        place,
        Line::numbered(Word::Start, u64::from(r.answer), 0),
    );
    Stepped {
        session: r.session,
        at: end,
    }
}

// One step for all prices.
pub(crate) fn start_written(
    session: Session,
    p: OneStep,
    place: u64,
    out: &mut [u8],
    at: usize,
) -> Stepped<Session>
    requires { Sound session × (at + line_room ≤ length out.old) }
    ensures { WroteStep place out.old out.new at result (step session (Record.Start p)) }
{
    table_written(session, p.as_start(), place, out, at)
}

// A start by bands, read from where it stands (02 K6).
pub(crate) fn bands_written(
    session: Session,
    bytes: &[u8],
    from: usize,
    place: u64,
    out: &mut [u8],
    at: usize,
) -> Stepped<Session>
    requires { Sound session × (at + line_room ≤ length out.old) × BandsAt bytes.now from }
    ensures { WroteStep place out.old out.new at result (step session (record_in bytes.now from)) }
{
    table_written(session, bands_from(bytes, from), place, out, at)
}

pub fn auction_line(answer: u8, res: AuctionAnswer) -> Line
    ensures { result ≡ auction_line answer res }
{
    Line {
        word: Word::Auction,
        answer: u64::from(answer),
        numbers: [
            u64::from(res.outcome),
            u64::from(res.price),
            res.quantity,
            u64::from(res.count),
        ],
    }
}

// The trades are read from the list that the auction wrote them to.
pub(crate) fn auction_written(
    session: Session,
    which: u8,
    list: &mut [u32],
    place: u64,
    out: &mut [u8],
    at: usize,
) -> Stepped<Session>
    requires { Sound session × (length list.old ≡ trade_list_length) × (at + record_room ≤ length out.old) }
    ensures { WroteStep place out.old out.new at result (step session (Record.Auction which)) }
{
    let r = calls::auction(session, which, list);
    let line = auction_line(r.answer, r.result);
    let behind = line_of(out, at, place, line);
    let end = trade_lines(out, behind, list, r.result.count as usize);
    Stepped {
        session: r.session,
        at: end,
    }
}
