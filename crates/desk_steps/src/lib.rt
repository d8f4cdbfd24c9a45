// A record of a session file carried out in a session that keeps the square, and its lines written (01 "Session file"; 02 K5). Its promise says which lines
// these are and which desk is left.
#![tactic(auto)]

ghost use Rattle.std.specs.Prelude.{◌≡◌, ◌+◌, ◌≤◌, length};
ghost use Rattle.terms.specs.Bounds.{trade_list_length};
ghost use Rattle.lists.specs.Put.{Wrote};
ghost use Rattle.lines.specs.Line.{line_of};
ghost use Rattle.lines.specs.Lengths.{line_room};
ghost use Rattle.transcript.specs.Steps.{record_room};
ghost use Rattle.desk.specs.Sound.{SoundDesk};
ghost use Rattle.desk_steps.specs.Steps.{two_numbers, WroteDesk, desk_step};

use desk::Desk;
use lines::{Line, Word, line_of, trade_lines};
use records::{Deletion, Record};
use terms::{Entry, QuoteEntry, Start};
use transcript::{Stepped, auction_line};

// A record's line, with two numbers behind its answer; its word says how many of them are told.
fn put_answer(
    out: &mut [u8],
    at: usize,
    place: u64,
    word: Word,
    answer: u8,
    first: u32,
    second: u32,
) -> usize
    requires { at + line_room ≤ length out.old }
    ensures { Wrote out.old out.new at result (line_of place (two_numbers word answer first second)) }
{
    let line = Line {
        word,
        answer: u64::from(answer),
        numbers: [u64::from(first), u64::from(second), 0, 0],
    };
    line_of(out, at, place, line)
}

// By its table; a start of kind 1 means one row (02 K6).
fn started(desk: Desk, start: Start, place: u64, out: &mut [u8], at: usize) -> Stepped<Desk>
    requires { SoundDesk desk × (at + line_room ≤ length out.old) }
    ensures { WroteDesk place out.old out.new at result (desk_step desk (Record.Bands start)) }
{
    let r = desk::start(desk, start);
    let end = put_answer(out, at, place, Word::Start, r.answer, 0, 0);
    Stepped {
        session: r.session,
        at: end,
    }
}

fn entered(desk: Desk, entry: Entry, place: u64, out: &mut [u8], at: usize) -> Stepped<Desk>
    requires { SoundDesk desk × (at + line_room ≤ length out.old) }
    ensures { WroteDesk place out.old out.new at result (desk_step desk (Record.Order entry)) }
{
    let r = desk::order(desk, entry);
    let end = put_answer(out, at, place, Word::Order, r.answer, r.number, 0);
    Stepped {
        session: r.session,
        at: end,
    }
}

fn deleted(desk: Desk, deletion: Deletion, place: u64, out: &mut [u8], at: usize) -> Stepped<Desk>
    requires { SoundDesk desk × (at + line_room ≤ length out.old) }
    ensures { WroteDesk place out.old out.new at result (desk_step desk (Record.Delete deletion)) }
{
    let r = desk::delete(desk, deletion.number, deletion.member);
    let end = put_answer(out, at, place, Word::Delete, r.answer, 0, 0);
    Stepped {
        session: r.session,
        at: end,
    }
}

fn quoted(desk: Desk, entry: QuoteEntry, place: u64, out: &mut [u8], at: usize) -> Stepped<Desk>
    requires { SoundDesk desk × (at + line_room ≤ length out.old) }
    ensures { WroteDesk place out.old out.new at result (desk_step desk (Record.Quote entry)) }
{
    let r = desk::quote(desk, entry);
    let end = put_answer(out, at, place, Word::Quote, r.answer, r.bid, r.ask);
    Stepped {
        session: r.session,
        at: end,
    }
}

// The trades are read from the list that the auction wrote them to.
fn auctioned(
    desk: Desk,
    which: u8,
    place: u64,
    list: &mut [u32],
    out: &mut [u8],
    at: usize,
) -> Stepped<Desk>
    requires { SoundDesk desk × (length list.old ≡ trade_list_length) × (at + record_room ≤ length out.old) }
    ensures { WroteDesk place out.old out.new at result (desk_step desk (Record.Auction which)) }
{
    let r = desk_auction::auction(desk, which, list);
    let line = auction_line(r.answer, r.result);
    let behind = line_of(out, at, place, line);
    let end = trade_lines(out, behind, list, r.result.count as usize);
    Stepped {
        session: r.session,
        at: end,
    }
}

pub fn carried_out(
    desk: Desk,
    asked: Record,
    place: u64,
    list: &mut [u32],
    out: &mut [u8],
    at: usize,
) -> Stepped<Desk>
    requires { SoundDesk desk × (length list.old ≡ trade_list_length) × (at + record_room ≤ length out.old) }
    ensures { WroteDesk place out.old out.new at result (desk_step desk asked) }
{
    match asked {
        Record::Start(start) => started(desk, start.as_start(), place, out, at),
        Record::Order(entry) => entered(desk, entry, place, out, at),
        Record::Delete(deletion) => deleted(desk, deletion, place, out, at),
        Record::Auction(which) => auctioned(desk, which, place, list, out, at),
        Record::Quote(entry) => quoted(desk, entry, place, out, at),
        Record::Bands(start) => started(desk, start, place, out, at),
    }
}
