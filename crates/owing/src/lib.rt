// Who owes whom, in lines: one for each cell of the square that is not 0, by rows and then by columns, and the total (02 K5).
#![tactic(auto)]

ghost use Rattle.std.specs.Prelude.{◌+◌, ◌*◌, ◌≤◌, length};
ghost use Rattle.lists.specs.Put.{Wrote};
ghost use Rattle.squares.specs.Square.{square_members, square_cells};
ghost use Rattle.desk.specs.Sound.{SoundDesk};
ghost use Rattle.owing.specs.Owing.{owes_line, row_lines, square_lines, owed_lines};
ghost use Rattle.owing.specs.Lengths.{owes_most, owes_room, square_room};
ghost use Rattle.owing.specs.OneByOne.{WroteWithin};

use desk::{Desk, square};
use lines::put_numbers;
use squares::{MEMBERS, total_of};
use text::put_bytes;

// The line of a cell, where it is not 0.
fn put_cell(out: &mut [u8], at: usize, buyer: u16, seller: u16, quantity: u64) -> usize
    requires { at + owes_room ≤ length out.old }
    ensures { WroteWithin owes_most out.old out.new at result (owes_line buyer seller quantity) }
{
    let is_empty = quantity == 0;
    if is_empty {
        return at;
    }
    let numbers = [u64::from(buyer), u64::from(seller), quantity];
    let p = put_bytes(out, at, b"owes");
    put_numbers(out, p, &numbers)
}

// The lines of a row: what one member bought of each.
fn put_row<'a>(
    out: &mut [u8],
    at: usize,
    members: &'a [u16; MEMBERS],
    buyer: u16,
    cells: &'a [u64; MEMBERS],
) -> usize
    requires { at + square_members * owes_most + owes_room ≤ length out.old }
    ensures { WroteWithin (square_members * owes_most) out.old out.new at result (row_lines members.now buyer cells.now) }
{
    let mut end = at;
    for (column, &seller) in members.iter().enumerate() {
        end = put_cell(out, end, buyer, seller, cells[column]);
    }
    end
}

// The lines of all rows.
fn put_square<'a>(
    out: &mut [u8],
    at: usize,
    members: &'a [u16; MEMBERS],
    owed: &'a [[u64; MEMBERS]; MEMBERS],
) -> usize
    requires { at + square_room ≤ length out.old }
    ensures { WroteWithin (square_cells * owes_most) out.old out.new at result (square_lines members.now owed.now) }
{
    let mut end = at;
    for (row, &buyer) in members.iter().enumerate() {
        end = put_row(out, end, members, buyer, &owed[row]);
    }
    end
}

// All lines behind the session's own.
pub fn owed_lines(out: &mut [u8], at: usize, desk: Desk) -> usize
    requires { SoundDesk desk × (at + square_room ≤ length out.old) }
    ensures { Wrote out.old out.new at result (owed_lines desk) }
{
    let owed = square(desk);
    let numbers = [total_of(&desk.totals)];
    let end = put_square(out, at, &desk.members, &owed);
    let p = put_bytes(out, end, b"total");
    put_numbers(out, p, &numbers)
}
