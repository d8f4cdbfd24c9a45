// Quotes: where a side of a member's quote stands, and the columns with a quote in place of the old one (02 K2).
ghost use Rattle.std.specs.Prelude.{◌≡◌, ◌<◌, ◌≤◌, ◌+◌};
ghost use Rattle.book.specs.Groups.{has_number};
ghost use Rattle.quotes.specs.Quotes.{is_quote_in, quote_place_in, emptied, requoted, requoted_words, requoted_book};
ghost use Rattle.terms.specs.Bounds.{places};

use crate::Pair;
use book::{Book, Stored, Values, first_place, holds, put};
use places::{WORDS, mark, unmark};
use terms::Place;

// The first place that holds a side of the member's quotes, or 512. Free places hold none.
pub fn quote_place(book: &Book, member: u16, side: u8) -> usize
    ensures { result ≡ quote_place_in book.now.quoted book.now.member book.now.side member side 0 places }
{
    first_place(
        |from: usize| -> bool
            requires { from + 16 ≤ places }
            ensures { result ≡ has_number book.entry.now.quoted 1 from 16 }
        { holds(&book.quoted, from, 1) },
        |place: usize| -> bool
            requires { place < places }
            ensures { result ≡ is_quote_in book.entry.now.quoted book.entry.now.member book.entry.now.side member side place }
        {
            let is_side = book.quoted[place] == 1;
            is_side & ((book.member[place] == member) & (book.side[place] == side))
        },
    )
}

// A place of a column that is lent emptied; 512 is no place.
fn empty<T: Stored>(column: &mut [T; Place::COUNT], place: usize)
    ensures { column.new ≡ emptied T.empty column.old place }
{
    if place < Place::COUNT {
        column[place] = T::empty();
    }
}

// The old sides emptied, and the new ones put.
pub fn requote_column<T: Stored>(
    column: &mut [T; Place::COUNT],
    old: Pair,
    fresh: Pair,
    bid: T,
    ask: T,
)
    requires { (fresh.bid < places) × (fresh.ask < places) }
    ensures { column.new ≡ requoted T.empty column.old old fresh bid ask }
{
    empty(column, old.bid);
    empty(column, old.ask);
    put(column, fresh.bid, bid);
    put(column, fresh.ask, ask);
}

// .. and in the words that say which places are taken.
pub fn requote_words(words: &mut [u64; WORDS], old: Pair, fresh: Pair)
    ensures { words.new ≡ requoted_words words.old old fresh }
{
    unmark(words, old.bid);
    unmark(words, old.ask);
    mark(words, fresh.bid);
    mark(words, fresh.ask);
}

// A book with a quote in place of the old one: the words, and each column.
pub fn requote(book: &mut Book, old: Pair, fresh: Pair, bid: Values, ask: Values)
    requires { (fresh.bid < places) × (fresh.ask < places) }
    ensures { book.new ≡ requoted_book book.old old fresh bid ask }
{
    requote_words(&mut book.taken, old, fresh);
    requote_column(&mut book.number, old, fresh, bid.number, ask.number);
    requote_column(&mut book.member, old, fresh, bid.member, ask.member);
    requote_column(&mut book.side, old, fresh, bid.side, ask.side);
    requote_column(&mut book.validity, old, fresh, bid.validity, ask.validity);
    requote_column(&mut book.left, old, fresh, bid.left, ask.left);
    requote_column(&mut book.limit, old, fresh, bid.limit, ask.limit);
    requote_column(&mut book.quoted, old, fresh, bid.quoted, ask.quoted);
}
