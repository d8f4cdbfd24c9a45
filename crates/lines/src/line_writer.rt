// The lines that the session program prints, each written into a lent buffer from a place on (01 "Session file"; 02 K2; D3).
ghost use Rattle.std.specs.Prelude.{◌+◌, ◌*◌, ◌≤◌, length};
ghost use Rattle.terms.specs.Bounds.{numbers_per_trade};
ghost use Rattle.trades.specs.Written.{trades_read};
ghost use Rattle.lines.specs.Line.{numbers, answer_text, line_of, done_line, quote_line, trade_line, trade_lines, fault_line, end_line};
ghost use Rattle.lines.specs.Lengths.{numbers_room, answer_room, line_room, trade_room, fault_room, end_room};
ghost use Rattle.lists.specs.Put.{Wrote};

use crate::Line;
use crate::words::{Word, put_word, word_numbers};
use text::{put_byte, put_bytes, put_decimal, put_number};
use trades::Trade;

const NEWLINE: u8 = b'\n';

// Numbers, each behind a space, and the end of the line.
pub fn put_numbers(out: &mut [u8], at: usize, xs: &[u64]) -> usize
    requires { at + numbers_room (length xs.now) ≤ length out.old }
    ensures { Wrote out.old out.new at result (numbers xs.now) }
{
    let mut end = at;
    for x in xs {
        end = put_number(out, end, *x);
    }
    put_byte(out, end, NEWLINE)
}

// What stands behind a record's place.
fn put_answer(out: &mut [u8], at: usize, line: Line) -> usize
    requires { at + answer_room ≤ length out.old }
    ensures { Wrote out.old out.new at result (answer_text line) }
{
    let p = put_word(out, at, line.word);
    let q = put_number(out, p, line.answer);
    put_numbers(out, q, &line.numbers[..word_numbers(line.word)])
}

// What a record was answered.
pub fn line_of(out: &mut [u8], at: usize, place: u64, line: Line) -> usize
    requires { at + line_room ≤ length out.old }
    ensures { Wrote out.old out.new at result (line_of place line) }
{
    let p = put_decimal(out, at, place);
    put_answer(out, p, line)
}

// The line of a record that was done: most lines of a session are an order's or a deletion's.
pub fn done_line(out: &mut [u8], at: usize, place: u64, word: Word, number: u32) -> usize
    requires { at + line_room ≤ length out.old }
    ensures { Wrote out.old out.new at result (line_of place (done_line word number)) }
{
    let p = put_decimal(out, at, place);
    let told = u64::from(number);
    match word {
        Word::Order => {
            let q = put_bytes(out, p, b" order 0 ");
            let r = put_decimal(out, q, told);
            put_byte(out, r, NEWLINE)
        }
        Word::Delete => put_bytes(out, p, b" delete 0\n"),
        _ => put_answer(out, p, Line::numbered(word, 0, told)),
    }
}

// The line of a quote that was done, with the numbers of its buy and its sell (02 K2).
pub fn quote_line(out: &mut [u8], at: usize, place: u64, bid: u32, ask: u32) -> usize
    requires { at + line_room ≤ length out.old }
    ensures { Wrote out.old out.new at result (line_of place (quote_line bid ask)) }
{
    let p = put_decimal(out, at, place);
    let q = put_bytes(out, p, b" quote 0 ");
    let r = put_decimal(out, q, u64::from(bid));
    let s = put_number(out, r, u64::from(ask));
    put_byte(out, s, NEWLINE)
}

// A trade of the auction above.
fn trade_line(out: &mut [u8], at: usize, buy: u32, sell: u32, quantity: u32) -> usize
    requires { at + trade_room ≤ length out.old }
    ensures { Wrote out.old out.new at result (trade_line (record { buy = buy; sell = sell; quantity = quantity })) }
{
    let p = put_bytes(out, at, b"trade");
    put_numbers(
        out,
        p,
        &[u64::from(buy), u64::from(sell), u64::from(quantity)],
    )
}

// The trades that stand in a lent list, four numbers each.
pub fn trade_lines(out: &mut [u8], at: usize, list: &[u32], count: usize) -> usize
    requires { (at + trade_room * count ≤ length out.old) × (numbers_per_trade * count ≤ length list.now) }
    ensures { Wrote out.old out.new at result (trade_lines (trades_read count list.now)) }
{
    let mut end = at;
    let (trades, _) = list.as_chunks::<{ Trade::NUMBERS }>();
    for [buy, sell, quantity, _] in &trades[..count] {
        end = trade_line(out, end, *buy, *sell, *quantity);
    }
    end
}

// The record at which the walk ended.
pub fn fault_line(out: &mut [u8], at: usize, place: u64) -> usize
    requires { at + fault_room ≤ length out.old }
    ensures { Wrote out.old out.new at result (fault_line place) }
{
    let p = put_decimal(out, at, place);
    put_bytes(out, p, b" fault 1\n")
}

// How many records were answered.
pub fn end_line(out: &mut [u8], at: usize, count: u64) -> usize
    requires { at + end_room ≤ length out.old }
    ensures { Wrote out.old out.new at result (end_line count) }
{
    let p = put_bytes(out, at, b"end");
    put_numbers(out, p, &[count])
}
