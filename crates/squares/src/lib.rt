// The square: for each buying and each selling member what was traded since start (02 K5). Its cells lie row after row in one list, which is handed out as
// rows.
#![tactic(auto)]

ghost use Rattle.std.specs.Prelude.{◌≡◌, List, ℕ, ◌+◌, ◌*◌, ◌<◌, ◌≤◌, ◌^◌, length, get_or, take};
ghost use Rattle.terms.specs.Bounds.{places};
ghost use Rattle.trades.specs.Trades.{volume};
ghost use Rattle.trades.specs.Written.{trades_read};
ghost use Rattle.squares.specs.Square.{square_members, square_cells, row_of, cell_of, Small, InBook, total, added_at, added_to, row_at, square_of};
ghost use Rattle.squares.specs.Naming.{renamed, place_column};

use std::array;
use terms::Place;
use trades::Trade;

// Members that a square has room for: one row and one column for each.
pub const MEMBERS: usize = 32;

pub const CELLS: usize = MEMBERS * MEMBERS;

// The row of a member: where it stands among those entered, or behind the last of them. Members and their count come as the desk has them: memory is fixed.
pub fn row_of(members: &[u16; MEMBERS], entered: usize, member: u16) -> usize
    requires { (length members.now ≡ square_members) × (entered ≤ square_members) }
    ensures { result ≡ row_of (take entered members.now) member }
{
    members[..entered]
        .iter()
        .position(|m| *m == member)
        .unwrap_or(entered)
}

// The cell of two rows, the buying member's first.
fn cell_of(buyer: u8, seller: u8) -> usize
    requires { (buyer < square_members) × (seller < square_members) }
    ensures { (result ≡ cell_of buyer seller) × (result < square_cells) }
{
    usize::from(buyer) * MEMBERS + usize::from(seller)
}

// A quantity added to a cell.
fn add_at(totals: &mut [u64; CELLS], cell: usize, quantity: u32)
    requires { (cell < square_cells) × (get_or totals.old cell 0 + quantity < 2 ^ 64) }
    ensures { totals.new ≡ added_at cell quantity totals.old }
{
    totals[cell] += u64::from(quantity);
}

// The quantities of the first trades of a list, whose sides are told by places, added to their cells.
// With the count beside the list: cut to these trades, its clauses would say a quarter of its length for the count, and no line would be plainer.
pub fn add_trades<'a>(
    totals: &mut [u64; CELLS],
    list: &'a [u32],
    count: usize,
    rows: &'a [u8; Place::COUNT],
)
    requires { (length totals.old ≡ square_cells) × (4 * count ≤ length list.now) × Small rows.now × InBook (trades_read count list.now) × (total totals.old + volume (trades_read count list.now) < 2 ^ 64) }
    ensures { totals.new ≡ added_to (λ p. get_or rows.now p 0) (trades_read count list.now) totals.old }
{
    let (trades, _) = list[..count * Trade::NUMBERS].as_chunks::<{ Trade::NUMBERS }>();
    for &[buy, sell, quantity, _] in trades {
        let cell = cell_of(rows[buy as usize], rows[sell as usize]);
        add_at(totals, cell, quantity);
    }
}

// The places that tell the sides of a list's first trades, exchanged for the numbers of the orders there.
pub fn name_orders(list: &mut [u32], count: usize, numbers: &[u32; Place::COUNT])
    requires { (4 * count ≤ length list.old) × InBook (trades_read count list.old) }
    ensures { list.new ≡ renamed (λ p. get_or numbers.now p 0) count list.old }
{
    for i in 0..count {
        let at = i * Trade::NUMBERS;
        let buy = list[at] as usize;
        let sell = list[at + 1] as usize;
        list[at] = numbers[buy];
        list[at + 1] = numbers[sell];
    }
}

// Trades of a list whose sides are told by places: added to their cells, and told by the numbers of the orders there from now on.
pub fn clear_trades<'a>(
    totals: &mut [u64; CELLS],
    list: &mut [u32],
    count: usize,
    rows: &'a [u8; Place::COUNT],
    numbers: &'a [u32; Place::COUNT],
)
    requires { (length totals.old ≡ square_cells) × (4 * count ≤ length list.old) × Small rows.now × InBook (trades_read count list.old) × (total totals.old + volume (trades_read count list.old) < 2 ^ 64) }
    ensures { (totals.new ≡ added_to (λ p. get_or rows.now p 0) (trades_read count list.old) totals.old) × (list.new ≡ renamed (λ p. get_or numbers.now p 0) count list.old) }
{
    add_trades(totals, list, count, rows);
    name_orders(list, count, numbers);
}

// A column that has at each place the place.
pub fn place_column() -> [u32; Place::COUNT]
    ensures { result ≡ place_column }
{
    array::from_fn(|place| place as u32)
}

// A row of the square.
fn row_at(totals: &[u64; CELLS], row: usize) -> [u64; MEMBERS]
    requires { (length totals.now ≡ square_cells) × (row < square_members) }
    ensures { result ≡ row_at totals.now row }
{
    let mut cells = [0u64; MEMBERS];
    for (column, cell) in cells.iter_mut().enumerate() {
        *cell = totals[row * MEMBERS + column];
    }
    cells
}

// The square: one row for each buying member.
pub fn square_of(totals: &[u64; CELLS]) -> [[u64; MEMBERS]; MEMBERS]
    requires { length totals.now ≡ square_cells }
    ensures { result ≡ square_of totals.now }
{
    let mut square = [[0u64; MEMBERS]; MEMBERS];
    for (row, cells) in square.iter_mut().enumerate() {
        *cells = row_at(totals, row);
    }
    square
}

// All cells together.
pub fn total_of(totals: &[u64; CELLS]) -> u64
    requires { (length totals.now ≡ square_cells) × (total totals.now < 2 ^ 64) }
    ensures { result ≡ total totals.now }
{
    totals.iter().sum()
}
