// Hints for quotes: by member, at which place a side of its quotes may rest. Of a table only 0 is trusted: no such member has one.
ghost use Rattle.std.specs.Prelude.{◌≡◌, ◌<◌, ◌+◌, ◌%◌, set};
ghost use Rattle.quotes.specs.QuoteHints.{quote_hints, Hinted, OneQuoteIn};
ghost use Rattle.quotes.specs.Quotes.{quote_place_in};
ghost use Rattle.terms.specs.Bounds.{places};

use crate::sides::quote_place;
use book::Book;
use terms::Place;

// Members that are as far apart share one: eight times as many as places, so that few do.
pub const QUOTE_HINTS: usize = 8 * Place::COUNT;

pub fn quote_hint(hints: &mut [u16; QUOTE_HINTS], member: u16, place: usize)
    requires { place < places }
    ensures { hints.new ≡ set hints.old (member % quote_hints) (place + 1) }
{
    hints[member as usize % QUOTE_HINTS] = (place + 1) as u16;
}

// The table made anew: a hint for each side of a quote that rests on this side of the book. It is cleared first, which also tells its length.
pub fn quote_hint_all(hints: &mut [u16; QUOTE_HINTS], book: &Book, side: u8)
    ensures { Hinted book.now.quoted book.now.member book.now.side hints.new side }
{
    *hints = [0u16; QUOTE_HINTS];
    for place in 0..Place::COUNT {
        if (book.quoted[place] == 1) & (book.side[place] == side) {
            quote_hint(hints, book.member[place], place);
        }
    }
}

// The first place that holds a side of the member's quotes, or 512. A member has one of each side: a place that holds it answers for all,
// and where the hint says another the search goes through the book.
pub fn quote_place_by_hint(book: &Book, hints: &[u16; QUOTE_HINTS], member: u16, side: u8) -> usize
    requires { OneQuoteIn book.now.quoted book.now.member book.now.side × Hinted book.now.quoted book.now.member book.now.side hints.now side }
    ensures { result ≡ quote_place_in book.now.quoted book.now.member book.now.side member side 0 places }
{
    let hint = usize::from(hints[member as usize % QUOTE_HINTS]);
    if hint == 0 {
        return Place::COUNT;
    }
    let place = hint - 1;
    if place < Place::COUNT {
        if book.quoted[place] == 1 {
            if (book.member[place] == member) & (book.side[place] == side) {
                return place;
            }
        }
    }
    quote_place(book, member, side)
}
