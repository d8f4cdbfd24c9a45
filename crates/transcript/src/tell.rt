// The telling: the records of the bytes at hand answered one by one, their lines written into a lent buffer.
ghost use Rattle.std.specs.Prelude.{◌≡◌, ◌+◌, ◌≤◌, ◌<◌, ◌^◌, length, take};
ghost use Rattle.terms.specs.Bounds.{trade_list_length};
ghost use Rattle.session.specs.Sound.{Sound};
ghost use Rattle.lists.specs.Put.{put};
ghost use Rattle.transcript.specs.Told.{next_told, records_told, halt_of};

use crate::steps::{auction_written, bands_written, doing_of, start_written};
use crate::{Doing, Next, Stop, Telling};
use book::{HINTS, hint, hint_all};
use lines::{LINE_ROOM, Line, TRADE_ROOM, done_line, line_of, quote_line};
use quotes::{QUOTE_HINTS, quote_hint, quote_hint_all, requote};
use records::{Piece, read_at};
use session::Session;
use terms::Side;
use trades::Trade;

const RECORD_ROOM: usize = LINE_ROOM + TRADE_ROOM * Trade::MOST;

pub fn next_told(bytes: &[u8], place: usize, ended: bool, room: usize) -> Next
    ensures { result ≡ next_told bytes.now place ended room }
{
    if room < RECORD_ROOM {
        return Next::Stop(Stop::Full);
    }
    let piece = read_at(bytes, place, ended);
    match piece {
        Piece::Record(record, next) => Next::Record(record, next),
        Piece::Waits => Next::Stop(Stop::Waits),
        Piece::Fault => Next::Stop(Stop::Fault),
        Piece::End => Next::Stop(Stop::End),
    }
}

// The records, one by one. One session stands through all of them, and a change is written in it here: its book is lent to a call, where a
// session by value would be copied for each record.
pub fn records_told(
    session: Session,
    answered: u64,
    bytes: &[u8],
    ended: bool,
    list: &mut [u32],
    out: &mut [u8],
) -> Telling
    requires { Sound session × (length list.old ≡ trade_list_length) × (answered + length bytes.now < 2 ^ 64) }
    ensures { (halt_of result out.new ≡ records_told (length out.old) ended bytes.now session answered) × (result.at ≤ length out.old) × (out.new ≡ put out.old 0 (take result.at out.new)) }
{
    let mut hints = [0u16; HINTS];
    hint_all(&mut hints, &session.book.number);
    let mut present = session;
    let mut bids = [0u16; QUOTE_HINTS];
    quote_hint_all(&mut bids, &present.book, Side::BUY);
    let mut asks = [0u16; QUOTE_HINTS];
    quote_hint_all(&mut asks, &present.book, Side::SELL);
    let mut count = answered;
    let mut place: usize = 0;
    let mut at: usize = 0;
    // From record to record, to where it stops.
    loop {
        // Read here, so that nothing stands between a record and what it does.
        let phase = present.phase;
        let parameters = present.parameters;
        let next = next_told(bytes, place, ended, out.len() - at);
        match next {
            Next::Record(record, behind) => {
                let from = place;
                count += 1;
                place = behind;
                let doing = doing_of(
                    record,
                    phase,
                    parameters,
                    parameters.reference,
                    present.given,
                    &present.book,
                    &hints,
                    &bids,
                    &asks,
                );
                match doing {
                    Doing::Refused(word, answer) => {
                        at = line_of(out, at, count, Line::numbered(word, answer, 0));
                    }
                    Doing::Done(word, c) => {
                        present.given = c.given;
                        present.book.write(c.place, c.word, c.values);
                        hint(&mut hints, c.values.number, c.place);
                        at = done_line(out, at, count, word, c.given);
                    }
                    Doing::Quoted(c) => {
                        let fresh = c.fresh;
                        let bid = c.bid;
                        let ask = c.ask;
                        present.given = c.given;
                        requote(&mut present.book, c.old, fresh, bid, ask);
                        hint(&mut hints, bid.number, fresh.bid);
                        hint(&mut hints, ask.number, fresh.ask);
                        quote_hint(&mut bids, bid.member, fresh.bid);
                        quote_hint(&mut asks, bid.member, fresh.ask);
                        at = quote_line(out, at, count, bid.number, ask.number);
                    }
                    Doing::Start(p) => {
                        let r = start_written(present, p, count, out, at);
                        present = r.session;
                        at = r.at;
                        quote_hint_all(&mut bids, &present.book, Side::BUY);
                        quote_hint_all(&mut asks, &present.book, Side::SELL);
                    }
                    Doing::Auction(which) => {
                        let r = auction_written(present, which, list, count, out, at);
                        present = r.session;
                        at = r.at;
                        quote_hint_all(&mut bids, &present.book, Side::BUY);
                        quote_hint_all(&mut asks, &present.book, Side::SELL);
                    }
                    Doing::Bands => {
                        let r = bands_written(present, bytes, from, count, out, at);
                        present = r.session;
                        at = r.at;
                        quote_hint_all(&mut bids, &present.book, Side::BUY);
                        quote_hint_all(&mut asks, &present.book, Side::SELL);
                    }
                }
            }
            Next::Stop(stop) => {
                return Telling {
                    session: present,
                    answered: count,
                    place,
                    at,
                    stop,
                };
            }
        }
    }
}
