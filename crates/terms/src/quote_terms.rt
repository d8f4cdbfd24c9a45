// Quotes: a limited buy and a limited sell in one instruction (02 K2).
ghost use Rattle.std.specs.Prelude.{◌≡◌};
ghost use Rattle.terms.specs.Quotes.{quote_side_of, quote_of, quote_order};

use crate::kinds::{Member, OutOfRange, Price, Quantity};
use crate::orders::{Limit, Order, Side, Validity};

// A side of a quote as it comes from outside: either field may hold any value.
#[derive(Clone, Copy)]
pub struct SideEntry {
    pub quantity: u32,
    pub limit: u32,
}

// A quote as it comes from outside.
#[derive(Clone, Copy)]
pub struct QuoteEntry {
    pub member: u16,
    pub bid: SideEntry,
    pub ask: SideEntry,
}

// A side with both fields in their range: its limit is a price.
#[derive(Clone, Copy)]
pub struct QuoteSide {
    pub quantity: Quantity,
    pub limit: Price,
}

impl TryFrom<SideEntry> for QuoteSide {
    type Error = OutOfRange;

    ghost try_from_gives = { λ e r. r ≡ quote_side_of e };

    #[tactic(auto, unfolding(crate::specs::Quotes::quote_side_of))]
    fn try_from(e: SideEntry) -> Result<QuoteSide, OutOfRange> {
        Ok(QuoteSide {
            quantity: Quantity::try_from(e.quantity)?,
            limit: Price::try_from(e.limit)?,
        })
    }
}

// A quote with every field in its range.
#[derive(Clone, Copy)]
pub struct Quote {
    pub member: Member,
    pub bid: QuoteSide,
    pub ask: QuoteSide,
}

impl TryFrom<QuoteEntry> for Quote {
    type Error = OutOfRange;

    ghost try_from_gives = { λ e r. r ≡ quote_of e };

    #[tactic(auto, unfolding(crate::specs::Quotes::quote_of, crate::specs::Quotes::quote_side_of))]
    fn try_from(e: QuoteEntry) -> Result<Quote, OutOfRange> {
        Ok(Quote {
            member: Member::try_from(e.member)?,
            bid: QuoteSide::try_from(e.bid)?,
            ask: QuoteSide::try_from(e.ask)?,
        })
    }
}

impl Quote {
    // A side as an order: the bid a limited buy, the ask a limited sell, both of validity day.
    pub fn order_on(self, side: Side) -> Order
        ensures { result ≡ quote_order self side }
    {
        let of_quote = match side {
            Side::Buy => self.bid,
            Side::Sell => self.ask,
        };
        Order {
            member: self.member,
            side,
            validity: Validity::Day,
            quantity: of_quote.quantity,
            limit: Limit::At(of_quote.limit),
        }
    }
}
