// Price steps by band (02 K6): rows of a lowest price and a step, and the row in which a price falls.
ghost use Rattle.std.specs.Prelude.{◌≡◌};
ghost use Rattle.terms.specs.Tables.{one_row, no_row, row_follows, later_of, row_of, on_step, is_table};

use crate::kinds::{Price, Step};

// Prices from the lowest on have this step, as far as the next row begins. From outside either number may hold any value.
#[derive(Clone, Copy)]
pub struct Row {
    pub lowest: u32,
    pub step: u32,
}

impl Row {
    // What stands behind the rows counted.
    pub fn none() -> Row
        ensures { result ≡ no_row }
    {
        Row { lowest: 0, step: 0 }
    }

    // A row that is counted begins above the one before it, at a price, and has a step; one that isn't is 0.
    fn follows(self, counted: bool, before: u32) -> bool
        ensures { result ≡ row_follows counted before self }
    {
        let lowest = self.lowest;
        let step = self.step;
        if counted {
            return (before < lowest)
                & (((Price::MIN <= lowest) & (lowest <= Price::MAX))
                    & ((Step::MIN <= step) & (step <= Step::MAX)));
        }
        (lowest == 0) & (step == 0)
    }

    // This row, or the one found so far where this one begins above the price.
    fn later(self, price: u32, found: Row) -> Row
        ensures { result ≡ later_of price found self }
    {
        if self.lowest <= price { self } else { found }
    }
}

// Up to eight rows, of which so many are counted; the others are 0.
#[derive(Clone, Copy)]
pub struct Table {
    pub count: u16,
    pub rows: [Row; Table::ROWS],
}

impl Table {
    // As many rows as a table has place for, counted or not.
    pub const ROWS: usize = 8;

    pub const MOST: u16 = Table::ROWS as u16;

    // One step for all prices.
    pub fn one(step: u32) -> Table
        ensures { result ≡ one_row step }
    {
        let mut rows = [Row::none(); Table::ROWS];
        rows[0] = Row {
            lowest: Price::MIN,
            step,
        };
        Table { count: 1, rows }
    }

    // The last row that doesn't begin above the price: as many comparisons with it as there are rows.
    fn row_of(self, price: u32) -> Row
        ensures { result ≡ row_of self price }
    {
        self.rows
            .iter()
            .take(usize::from(self.count))
            .fold(Row::none(), |found, row| row.later(price, found))
    }

    // A price on the step of the row in which it falls.
    pub fn on_step(self, price: Price) -> bool
        ensures { result ≡ on_step self price.0 }
    {
        let row = self.row_of(price.0);
        Step(row.step).divides(price)
    }

    // As many rows counted as there can be, beginning at the lowest price, each behind the one before it; the others 0.
    pub(crate) fn holds(self) -> bool
        ensures { result ≡ is_table self }
    {
        let count = self.count;
        let first = self.rows[0];
        let mut before = 0;
        let mut rise = true;
        for (i, row) in self.rows.iter().enumerate() {
            rise &= row.follows(i < usize::from(count), before);
            before = row.lowest;
        }
        ((1 <= count) & (count <= Table::MOST)) & (first.lowest == Price::MIN) & rise
    }
}
