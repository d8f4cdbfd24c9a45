// Records, each written into a lent buffer from a place on; the place behind it (01 "Session file"; K1). The header is the number by which the
// reader tells the kind, and the fields stand in the order of the layout.
ghost use Rattle.std.specs.Prelude.{◌≡◌, ◌+◌, ◌≤◌, T, [], ◌∷◌, length};
ghost use Rattle.lists.specs.Put.{Wrote};
ghost use Rattle.terms.specs.Tables.{rows};
ghost use Rattle.records.specs.Fields.{row_widths, layout_length, kind_length, in_range};
ghost use Rattle.records.specs.Bytes.{length_of, record_bytes};
ghost use Rattle.writer.specs.Rows.{later_bytes, row_bytes, rows_bytes, rows_room};

use crate::numbers::{put_byte, put_eight, put_four, put_two};
use records::{Deletion, Kind, Record};
use terms::{Entry, OneStep, QuoteEntry, Row, Start, Table};

// The fields that stand behind a start's step, or behind its rows.
fn put_later(out: &mut [u8], at: usize, start: Start) -> usize
    requires { at + layout_length (row_widths 0) ≤ length out.old }
    ensures { Wrote out.old out.new at result (later_bytes start.reference start.factor start.threshold start.most) }
{
    let p = put_four(out, at, start.reference);
    let q = put_two(out, p, start.factor);
    let r = put_two(out, q, start.threshold);
    put_eight(out, r, start.most)
}

fn put_start(out: &mut [u8], at: usize, start: OneStep) -> usize
    requires { at + kind_length 1 ≤ length out.old }
    ensures { Wrote out.old out.new at result (record_bytes (Record.Start start)) }
{
    let p = put_four(out, at, Kind::START_HEAD);
    let q = put_four(out, p, start.step);
    put_later(out, q, start.as_start())
}

fn put_order(out: &mut [u8], at: usize, entry: Entry) -> usize
    requires { at + kind_length 2 ≤ length out.old }
    ensures { Wrote out.old out.new at result (record_bytes (Record.Order entry)) }
{
    let p = put_four(out, at, Kind::ORDER_HEAD);
    let q = put_two(out, p, entry.member);
    let r = put_byte(out, q, entry.side);
    let s = put_byte(out, r, entry.validity);
    let t = put_four(out, s, entry.quantity);
    put_four(out, t, entry.limit)
}

fn put_delete(out: &mut [u8], at: usize, deletion: Deletion) -> usize
    requires { at + kind_length 3 ≤ length out.old }
    ensures { Wrote out.old out.new at result (record_bytes (Record.Delete deletion)) }
{
    let p = put_four(out, at, Kind::DELETE_HEAD);
    let q = put_four(out, p, deletion.number);
    put_two(out, q, deletion.member)
}

fn put_auction(out: &mut [u8], at: usize, which: u8) -> usize
    requires { at + kind_length 4 ≤ length out.old }
    ensures { Wrote out.old out.new at result (record_bytes (Record.Auction which)) }
{
    let p = put_four(out, at, Kind::AUCTION_HEAD);
    put_byte(out, p, which)
}

// A quote (02 K2).
fn put_quote(out: &mut [u8], at: usize, entry: QuoteEntry) -> usize
    requires { at + kind_length 5 ≤ length out.old }
    ensures { Wrote out.old out.new at result (record_bytes (Record.Quote entry)) }
{
    let bid = entry.bid;
    let ask = entry.ask;
    let p = put_four(out, at, Kind::QUOTE_HEAD);
    let q = put_two(out, p, entry.member);
    let r = put_four(out, q, bid.quantity);
    let s = put_four(out, r, bid.limit);
    let t = put_four(out, s, ask.quantity);
    put_four(out, t, ask.limit)
}

// A row: its lowest price, then its step (02 K6).
fn put_row(out: &mut [u8], at: usize, row: Row) -> usize
    requires { at + layout_length (4 ∷ 4 ∷ []) ≤ length out.old }
    ensures { Wrote out.old out.new at result (row_bytes row) }
{
    let p = put_four(out, at, row.lowest);
    put_four(out, p, row.step)
}

// Those counted, one behind the other.
fn put_rows(out: &mut [u8], at: usize, table: Table) -> usize
    requires { at + rows_room table.count ≤ length out.old }
    ensures { Wrote out.old out.new at result (rows_bytes (rows table)) }
{
    let mut next = at;
    for row in table.rows.iter().take(usize::from(table.count)) {
        next = put_row(out, next, *row);
    }
    next
}

// A start by bands (02 K6), of no more rows than a table has. Its length goes by them, so that its header is written as length and kind.
fn put_bands(out: &mut [u8], at: usize, start: Start) -> usize
    requires { (at + length_of (Record.Bands start) ≤ length out.old) × T (in_range (Record.Bands start)) }
    ensures { Wrote out.old out.new at result (record_bytes (Record.Bands start)) }
{
    let table = start.table;
    let count = table.count;
    let p = put_two(out, at, Kind::bands_length(count) as u16);
    let q = put_two(out, p, Kind::BANDS);
    let r = put_two(out, q, count);
    let s = put_rows(out, r, table);
    put_later(out, s, start)
}

// How many bytes a record has, with its header.
pub(crate) fn length_of(record: Record) -> usize
    ensures { result ≡ length_of «record» }
{
    match record {
        Record::Start(_) => Kind::START_LENGTH,
        Record::Order(_) => Kind::ORDER_LENGTH,
        Record::Delete(_) => Kind::DELETE_LENGTH,
        Record::Auction(_) => Kind::AUCTION_LENGTH,
        Record::Quote(_) => Kind::QUOTE_LENGTH,
        Record::Bands(start) => Kind::bands_length(start.table.count),
    }
}

pub(crate) fn put_record(out: &mut [u8], at: usize, record: Record) -> usize
    requires { (at + length_of «record» ≤ length out.old) × T (in_range «record») }
    ensures { Wrote out.old out.new at result (record_bytes «record») }
{
    match record {
        Record::Start(start) => put_start(out, at, start),
        Record::Order(entry) => put_order(out, at, entry),
        Record::Delete(deletion) => put_delete(out, at, deletion),
        Record::Auction(which) => put_auction(out, at, which),
        Record::Quote(entry) => put_quote(out, at, entry),
        Record::Bands(start) => put_bands(out, at, start),
    }
}
