// The three calls that change nothing, run on a session file: the theoretical answer, the ranked queue and the filled front (01 "Outcomes").
// The program looks at the session before each auction and where the walk ends, and prints what they answer; tools/compare.sh holds that to
// the second program's.
#![tactic(auto)]

mod fronts;
mod queues;

ghost use Rattle.std.specs.Prelude.{◌+◌, ◌<◌, ◌^◌};
ghost use Rattle.session.specs.Sound.{Sound};

use arrayvec::ArrayVec;
use calls::Session;
use feed::read_full;
use fronts::{front_lines, long_lines};
use queues::{ranked_lines, short_lines, theoretical_lines};
use records::{Deletion, Piece, Record, read_at};
use shown::{put_line, show};
use terms::{Entry, QuoteEntry, Start};

// The longest file that is read.
const FILE: usize = 65_536;

// The lines of a look, shown at once where they fit.
pub(crate) type Page = ArrayVec<u8, FILE>;

// What the calls answer before the record at this place, counted from 1.
fn look(rt: &impl Print, page: &mut Page, session: Session, place: u64)
    requires { Sound session }
{
    put_line(rt, page, b"look", &[place]);
    theoretical_lines(rt, page, session);
    ranked_lines(rt, page, session);
    short_lines(rt, page, session);
    front_lines(rt, page, session);
    long_lines(rt, page);
    show(rt, page);
}

// A look comes before an auction, whatever its byte is.
fn look_before(rt: &impl Print, page: &mut Page, session: Session, record: Record, place: u64)
    requires { Sound session }
{
    if let Record::Auction(_) = record {
        look(rt, page, session, place);
    }
}

// A call each, in a function of its own: a function sets what it keeps to 0 when it begins, and each of these keeps a session.
fn started(session: Session, start: Start) -> Session
    requires { Sound session }
    ensures { Sound result }
{
    calls::start(session, start).session
}

fn entered(session: Session, entry: Entry) -> Session
    requires { Sound session }
    ensures { Sound result }
{
    calls::order(session, entry).session
}

fn deleted(session: Session, deletion: Deletion) -> Session
    requires { Sound session }
    ensures { Sound result }
{
    calls::delete(session, deletion.number, deletion.member).session
}

fn auctioned(session: Session, which: u8) -> Session
    requires { Sound session }
    ensures { Sound result }
{
    let mut list = [0u32; Session::TRADE_LIST];
    calls::auction(session, which, &mut list).session
}

fn quoted(session: Session, entry: QuoteEntry) -> Session
    requires { Sound session }
    ensures { Sound result }
{
    calls::quote(session, entry).session
}

// The session after a record, as the session program carries it out (01 "Session file").
fn carried_out(session: Session, record: Record) -> Session
    requires { Sound session }
    ensures { Sound result }
{
    match record {
        Record::Start(start) => started(session, start.as_start()),
        Record::Order(entry) => entered(session, entry),
        Record::Delete(deletion) => deleted(session, deletion),
        Record::Auction(which) => auctioned(session, which),
        Record::Quote(entry) => quoted(session, entry),
        Record::Bands(start) => started(session, start),
    }
}

// The last look, and how many records were answered.
fn last_lines(rt: &impl Print, page: &mut Page, session: Session, answered: u64)
    requires { Sound session × (answered + 1 < 2 ^ 64) }
{
    look(rt, page, session, answered + 1);
    put_line(rt, page, b"end", &[answered]);
    show(rt, page);
}

// The records of a file one by one, to its end or to a fault. No more bytes will come, so that nothing is waited for.
fn walk(rt: &impl Print, file: &[u8], page: &mut Page) {
    let mut session = Session::fresh();
    let mut count: u64 = 0;
    let mut place: usize = 0;
    // From record to record: its number goes along for its lines.
    while let Piece::Record(record, next) = read_at(file, place, true) {
        count += 1;
        place = next;
        look_before(rt, page, session, record, count);
        session = carried_out(session, record);
    }
    last_lines(rt, page, session, count);
}

// The first 65,536 bytes are the whole file, so that it is read once and fits its buffer.
fn main(rt: HostRuntime) {
    let mut file = [0u8; FILE];
    let size = read_full(&rt, &mut file);
    let mut page = Page::new();
    walk(&rt, &file[..size], &mut page);
}
