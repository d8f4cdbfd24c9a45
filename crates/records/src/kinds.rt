// The kinds of record: for each its layout, what it holds, the reader of its fields over the part of the file that starts at the record's fifth
// byte (D1), and its header (01 "Session file").
ghost use Rattle.std.specs.Prelude.{◌≡◌, refl, ℕ, ◌+◌, ◌≤◌, ◌<◌, false, eqb, length};
ghost use Rattle.terms.specs.Bounds.{max_rows};
ghost use Rattle.records.specs.Fields.{number, header_length, band_widths, whole_length, kind_length, record_of, row_field, table_fields, bands_fields};
ghost use Rattle.records.specs.Walk.{length_at, part_at};
ghost use Rattle.records.specs.Headers.{Headed, Unheaded, header_at};

use crate::numbers::{byte, eight, four, two};
use std::array;
use terms::{Entry, OneStep, QuoteEntry, Row, SideEntry, Start, Table};

// A record with whatever values its fields hold.
#[derive(Clone, Copy)]
pub enum Record {
    Start(OneStep),
    Order(Entry),
    Delete(Deletion),
    Auction(u8),
    Quote(QuoteEntry),
    // A start with a table of steps (02 K6).
    Bands(Start),
}

#[derive(Clone, Copy)]
pub struct Deletion {
    pub member: u16,
    pub number: u32,
}

// The kinds of record and their lengths. The enum of kinds is `Record`: these are the file's numbers for them, so that the head of each is a constant by
// which one compare tells it.
#[derive(Clone, Copy)]
pub struct Kind;

impl Kind {
    pub const START: u16 = 1;

    pub const ORDER: u16 = 2;

    pub const DELETE: u16 = 3;

    pub const AUCTION: u16 = 4;

    pub const QUOTE: u16 = 5;

    pub const BANDS: u16 = 6;

    // Length and kind, two bytes each.
    pub const HEADER_LENGTH: usize = 4;

    pub const START_LENGTH: usize = Kind::HEADER_LENGTH + StartPart::END;

    pub const ORDER_LENGTH: usize = Kind::HEADER_LENGTH + OrderPart::END;

    pub const DELETE_LENGTH: usize = Kind::HEADER_LENGTH + DeletePart::END;

    pub const AUCTION_LENGTH: usize = Kind::HEADER_LENGTH + AuctionPart::END;

    pub const QUOTE_LENGTH: usize = Kind::HEADER_LENGTH + QuotePart::END;

    // Header and row count, by which a start by bands is judged (02 K6).
    pub const COUNTED_LENGTH: usize = Kind::HEADER_LENGTH + BandsPart::ROWS;

    // .. and what stands behind its rows.
    pub const BANDS_LENGTH: usize = Kind::COUNTED_LENGTH + BandsPart::END;

    // Length and kind as one number of four bytes, so that a header is judged by one load and one compare.
    pub const START_HEAD: u32 = Kind::START_LENGTH as u32 + 65_536 * Kind::START as u32;

    pub const ORDER_HEAD: u32 = Kind::ORDER_LENGTH as u32 + 65_536 * Kind::ORDER as u32;

    pub const DELETE_HEAD: u32 = Kind::DELETE_LENGTH as u32 + 65_536 * Kind::DELETE as u32;

    pub const AUCTION_HEAD: u32 = Kind::AUCTION_LENGTH as u32 + 65_536 * Kind::AUCTION as u32;

    pub const QUOTE_HEAD: u32 = Kind::QUOTE_LENGTH as u32 + 65_536 * Kind::QUOTE as u32;

    // The length of a start by bands goes by the rows that it counts (02 K6).
    pub fn bands_length(count: u16) -> usize
        ensures { result ≡ whole_length (band_widths count) }
    {
        Kind::BANDS_LENGTH + BandsPart::ROW * usize::from(count)
    }
}

// A kind of one length, and how the fields of its record are read.
trait Part {
    // Its number.
    ghost kind: { ℕ };

    // How many bytes its records have, with the header.
    ghost LENGTH: { ℕ };

    const LENGTH: usize;

    fn read(part: &[u8]) -> Record
        ensures { result ≡ record_of kind part.now };

    ghost known: { eqb (kind_length kind) 0 ≡ false };

    ghost long: { LENGTH ≡ kind_length kind };
}

// Each field starts where the one before it ends.
#[derive(Clone, Copy)]
pub struct StartPart;

impl StartPart {
    pub const STEP: usize = 0;

    pub const REFERENCE: usize = StartPart::STEP + 4;

    pub const FACTOR: usize = StartPart::REFERENCE + 4;

    pub const THRESHOLD: usize = StartPart::FACTOR + 2;

    pub const MOST: usize = StartPart::THRESHOLD + 2;

    pub const END: usize = StartPart::MOST + 8;
}

impl Part for StartPart {
    ghost kind = { 1 };

    ghost LENGTH = { kind_length 1 };

    const LENGTH: usize = Kind::START_LENGTH;

    fn read(part: &[u8]) -> Record {
        Record::Start(OneStep {
            step: four(part, StartPart::STEP),
            reference: four(part, StartPart::REFERENCE),
            factor: two(part, StartPart::FACTOR),
            threshold: two(part, StartPart::THRESHOLD),
            most: eight(part, StartPart::MOST),
        })
    }

    ghost known = { refl };

    ghost long = { refl };
}

#[derive(Clone, Copy)]
pub struct OrderPart;

impl OrderPart {
    pub const MEMBER: usize = 0;

    pub const SIDE: usize = OrderPart::MEMBER + 2;

    pub const VALIDITY: usize = OrderPart::SIDE + 1;

    pub const QUANTITY: usize = OrderPart::VALIDITY + 1;

    pub const LIMIT: usize = OrderPart::QUANTITY + 4;

    pub const END: usize = OrderPart::LIMIT + 4;
}

impl Part for OrderPart {
    ghost kind = { 2 };

    ghost LENGTH = { kind_length 2 };

    const LENGTH: usize = Kind::ORDER_LENGTH;

    fn read(part: &[u8]) -> Record {
        Record::Order(Entry {
            member: two(part, OrderPart::MEMBER),
            side: byte(part, OrderPart::SIDE),
            validity: byte(part, OrderPart::VALIDITY),
            quantity: four(part, OrderPart::QUANTITY),
            limit: four(part, OrderPart::LIMIT),
        })
    }

    ghost known = { refl };

    ghost long = { refl };
}

#[derive(Clone, Copy)]
pub struct DeletePart;

impl DeletePart {
    pub const NUMBER: usize = 0;

    pub const MEMBER: usize = DeletePart::NUMBER + 4;

    pub const END: usize = DeletePart::MEMBER + 2;
}

impl Part for DeletePart {
    ghost kind = { 3 };

    ghost LENGTH = { kind_length 3 };

    const LENGTH: usize = Kind::DELETE_LENGTH;

    fn read(part: &[u8]) -> Record {
        Record::Delete(Deletion {
            member: two(part, DeletePart::MEMBER),
            number: four(part, DeletePart::NUMBER),
        })
    }

    ghost known = { refl };

    ghost long = { refl };
}

#[derive(Clone, Copy)]
pub struct AuctionPart;

impl AuctionPart {
    pub const WHICH: usize = 0;

    pub const END: usize = AuctionPart::WHICH + 1;
}

impl Part for AuctionPart {
    ghost kind = { 4 };

    ghost LENGTH = { kind_length 4 };

    const LENGTH: usize = Kind::AUCTION_LENGTH;

    fn read(part: &[u8]) -> Record {
        Record::Auction(byte(part, AuctionPart::WHICH))
    }

    ghost known = { refl };

    ghost long = { refl };
}

// A quote's fields (02 K2).
#[derive(Clone, Copy)]
pub struct QuotePart;

impl QuotePart {
    pub const MEMBER: usize = 0;

    pub const BID_QUANTITY: usize = QuotePart::MEMBER + 2;

    pub const BID_LIMIT: usize = QuotePart::BID_QUANTITY + 4;

    pub const ASK_QUANTITY: usize = QuotePart::BID_LIMIT + 4;

    pub const ASK_LIMIT: usize = QuotePart::ASK_QUANTITY + 4;

    pub const END: usize = QuotePart::ASK_LIMIT + 4;
}

impl Part for QuotePart {
    ghost kind = { 5 };

    ghost LENGTH = { kind_length 5 };

    const LENGTH: usize = Kind::QUOTE_LENGTH;

    fn read(part: &[u8]) -> Record {
        let member = two(part, QuotePart::MEMBER);
        let bid = SideEntry {
            quantity: four(part, QuotePart::BID_QUANTITY),
            limit: four(part, QuotePart::BID_LIMIT),
        };
        let ask = SideEntry {
            quantity: four(part, QuotePart::ASK_QUANTITY),
            limit: four(part, QuotePart::ASK_LIMIT),
        };
        Record::Quote(QuoteEntry { member, bid, ask })
    }

    ghost known = { refl };

    ghost long = { refl };
}

// A start by bands (02 K6): row count and rows; the later fields' places are counted from behind the rows on.
#[derive(Clone, Copy)]
pub struct BandsPart;

impl BandsPart {
    pub const COUNT: usize = 0;

    pub const ROWS: usize = BandsPart::COUNT + 2;

    // In a row: the lowest price, then the step.
    pub const STEP: usize = 4;

    pub const ROW: usize = BandsPart::STEP + 4;

    pub const REFERENCE: usize = 0;

    pub const FACTOR: usize = BandsPart::REFERENCE + 4;

    pub const THRESHOLD: usize = BandsPart::FACTOR + 2;

    pub const MOST: usize = BandsPart::THRESHOLD + 2;

    pub const END: usize = BandsPart::MOST + 8;
}

// A row, if it is counted (02 K6).
fn row_at(part: &[u8], count: u16, index: usize) -> Row
    requires { index < max_rows }
    ensures { result ≡ row_field part.now count index }
{
    if usize::from(count) <= index {
        return Row::none();
    }
    let at = BandsPart::ROWS + BandsPart::ROW * index;
    Row {
        lowest: four(part, at),
        step: four(part, at + BandsPart::STEP),
    }
}

fn table_fields(part: &[u8]) -> Table
    ensures { result ≡ table_fields part.now }
{
    let count = two(part, BandsPart::COUNT);
    Table {
        count,
        rows: array::from_fn(|index| row_at(part, count, index)),
    }
}

// The fields of a start by bands (02 K6). Rows that are counted and for which a table has no place are passed over: such a count is out of range.
fn bands_fields(part: &[u8]) -> Start
    ensures { result ≡ bands_fields part.now }
{
    let table = table_fields(part);
    let behind = BandsPart::ROWS + BandsPart::ROW * usize::from(table.count);
    Start {
        table,
        reference: four(part, behind + BandsPart::REFERENCE),
        factor: two(part, behind + BandsPart::FACTOR),
        threshold: two(part, behind + BandsPart::THRESHOLD),
        most: eight(part, behind + BandsPart::MOST),
    }
}

// What a whole header says: a record and the place behind it, a record that isn't whole, or no known kind with its length.
#[derive(Clone, Copy)]
pub(crate) enum Header {
    Record(Record, usize),
    Cut,
    Bad,
}

// The record behind the header of such a kind. Its length is constant, so that the field readers' tests vanish when compiled.
fn record_at<P: Part>(bytes: &[u8], place: usize) -> Header
    requires { Headed P.kind bytes.now place }
    ensures { result ≡ header_at bytes.now place }
{
    if bytes.len() - place < P::LENGTH {
        return Header::Cut;
    }
    let from = place + Kind::HEADER_LENGTH;
    let next = place + P::LENGTH;
    Header::Record(P::read(&bytes[from..next]), next)
}

// The start by bands that stands at a place, for one who knows that it does: told apart by its header, and read when it is needed (02 K6).
pub fn bands_from(bytes: &[u8], place: usize) -> Start
    requires { (header_length < length_at bytes.now place) × (place + length_at bytes.now place ≤ length bytes.now) }
    ensures { result ≡ bands_fields (part_at bytes.now place) }
{
    let from = place + Kind::HEADER_LENGTH;
    let next = place + usize::from(two(bytes, place));
    bands_fields(&bytes[from..next])
}

// A start by bands, or no known kind with its length. Row count and length are judged together, as soon as both are there (02 K6).
fn bands_at(bytes: &[u8], place: usize, head: u32) -> Header
    requires { Unheaded head bytes.now place }
    ensures { result ≡ header_at bytes.now place }
{
    if head / 65_536 != u32::from(Kind::BANDS) {
        return Header::Bad;
    }
    let length = (head % 65_536) as usize;
    if length < Kind::COUNTED_LENGTH {
        return Header::Bad;
    }
    if bytes.len() - place < Kind::COUNTED_LENGTH {
        return Header::Cut;
    }
    let from = place + Kind::HEADER_LENGTH;
    if length != Kind::bands_length(two(bytes, from)) {
        return Header::Bad;
    }
    if bytes.len() - place < length {
        return Header::Cut;
    }
    let next = place + length;
    Header::Record(Record::Bands(bands_fields(&bytes[from..next])), next)
}

// Length and kind as one number, of a part of constant length, so that the reader's tests vanish when compiled.
fn head_at(bytes: &[u8], place: usize) -> u32
    requires { place + header_length ≤ length bytes.now }
    ensures { result ≡ number bytes.now place 4 }
{
    four(&bytes[place..place + Kind::HEADER_LENGTH], 0)
}

// Which kind's header it is.
pub(crate) fn header_at(bytes: &[u8], place: usize) -> Header
    requires { place + header_length ≤ length bytes.now }
    ensures { result ≡ header_at bytes.now place }
{
    let head = head_at(bytes, place);
    match head {
        Kind::START_HEAD => record_at::<StartPart>(bytes, place),
        Kind::ORDER_HEAD => record_at::<OrderPart>(bytes, place),
        Kind::DELETE_HEAD => record_at::<DeletePart>(bytes, place),
        Kind::AUCTION_HEAD => record_at::<AuctionPart>(bytes, place),
        Kind::QUOTE_HEAD => record_at::<QuotePart>(bytes, place),
        _ => bands_at(bytes, place, head),
    }
}
