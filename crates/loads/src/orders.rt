// The orders of a book, one after the other.
ghost use Rattle.std.specs.Prelude.{◌≡◌, ◌≤◌, ◌<◌, ◌+◌, ◌-◌, T, IfSome, IfNone};
ghost use Rattle.std.specs.Iterator.{at_most};
ghost use Rattle.terms.specs.Kinds.{is_member, is_multiple};
ghost use Rattle.terms.specs.Orders.{is_side};
ghost use Rattle.loads.specs.Loads.{step, takes_order};

use crate::REFERENCE;
use crate::load::Load;
use terms::{Entry, Side, Validity};

// So many orders of a load, of the members from FIRST on by turns.
#[derive(Clone, Copy, Drop)]
pub struct Orders<const FIRST: u16, const MEMBERS: u16> {
    load: Load,
    pub count: u32,
    // How many were given, and the number of a fixed generator of 65,537.
    pub given: u32,
    drawn: u32,
    ghost in_range: { (2 ≤ count) × (count ≤ 512) × (given ≤ count) × (drawn ≤ 65536) },
    ghost members: { (1 ≤ FIRST) × (1 ≤ MEMBERS) × (FIRST + MEMBERS ≤ 65536) },
}

impl<const FIRST: u16, const MEMBERS: u16> Orders<FIRST, MEMBERS> {
    pub fn new(load: Load, count: u32) -> Self
        requires count { (2 ≤ count) × (count ≤ 512) }
        requires members { (1 ≤ FIRST) × (1 ≤ MEMBERS) × (FIRST + MEMBERS ≤ 65536) }
        ensures { (result.given ≡ 0) × (result.count ≡ count) }
    {
        Orders {
            load,
            count,
            given: 0,
            drawn: 1,
        }
    }

    // The member whose turn it is.
    fn member(&self) -> u16
        ensures { T (is_member result) }
    {
        FIRST + (self.given % u32::from(MEMBERS)) as u16
    }

    fn against_one(&self, limit: u32) -> Entry
        requires left { self.now.given < self.now.count }
        requires limit { (100000 ≤ limit) × (limit ≤ 151200) × T (is_multiple step limit) }
        ensures { T (takes_order result) }
    {
        if self.given + 1 == self.count {
            return day_order(self.member(), Side::SELL, 10 * self.given, REFERENCE);
        }
        day_order(self.member(), Side::BUY, 10, limit)
    }

    // Buys at 80,000 to 131,100, sells at 68,900 to 120,000.
    fn mixed(&self) -> Entry
        ensures { T (takes_order result) }
    {
        let quantity = 1 + self.drawn % 97;
        let more = self.drawn / 97 % 512 * 100;
        if self.given % 2 == 0 {
            return day_order(self.member(), Side::BUY, quantity, 80_000 + more);
        }
        day_order(self.member(), Side::SELL, quantity, 68_900 + more)
    }
}

impl<const FIRST: u16, const MEMBERS: u16> Iterator for Orders<FIRST, MEMBERS> {
    type Item = Entry;

    ghost next_gives = { λ s r t. IfSome r (λ e. T (takes_order e) × (t.given ≡ s.given + 1) × (t.count ≡ s.count)) × IfNone r (s.given ≡ s.count) };

    ghost remaining = { λ s. at_most (s.count - s.given) };

    fn next(&mut self) -> Option<Entry> {
        if self.given == self.count {
            return None;
        }
        let order = match self.load {
            Load::OneLimit => self.against_one(REFERENCE),
            Load::Worst => self.against_one(REFERENCE + 100 * self.given),
            Load::Mixed => self.mixed(),
        };
        self.given += 1;
        self.drawn = (self.drawn * 75 + 74) % 65_537;
        Some(order)
    }
}

// In range, and near enough to the reference price.
pub(crate) fn day_order(member: u16, side: u8, quantity: u32, limit: u32) -> Entry
    requires in_range { T (is_member member) × T (is_side side) × (1 ≤ quantity) × (quantity ≤ 5120) }
    requires limit { (68900 ≤ limit) × (limit ≤ 151200) × T (is_multiple step limit) }
    ensures { T (takes_order result) }
{
    Entry {
        member,
        side,
        validity: Validity::DAY,
        quantity,
        limit,
    }
}
