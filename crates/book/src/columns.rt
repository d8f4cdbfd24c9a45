// Columns: how an order stands at a place, and storing, clearing and finding one.
ghost use Rattle.std.specs.Prelude.{◌≡◌, ◌<◌, ◌≤◌, ◌+◌, ◌/◌, ℕ, true, false, ◌||◌, set};
ghost use Rattle.std.specs.List.{fold};
ghost use Rattle.book.specs.Columns.{values_of, empty_values, empty_book, written};
ghost use Rattle.book.specs.Groups.{has_in, has_number};
ghost use Rattle.book.specs.Resting.{place_in, is_sought};
ghost use Rattle.places.specs.Places.{word_places};
ghost use Rattle.terms.specs.Bounds.{places};
ghost use Rattle.terms.specs.Orders.{validity_from, resting_as};

use crate::{Book, Values};
use places::{WORD_PLACES, WORDS, bit_of, put_word};
use terms::{Order, Place, Validity};

// A validity stands under its number of 01. Kept: as `From<u8>`, which only `terms` can write, it would say that every number is one; no plainer.
pub fn validity_from(x: u8) -> Validity
    ensures { result ≡ validity_from x }
{
    match x {
        Validity::AT_OPENING => Validity::AtOpening,
        Validity::AT_CLOSE => Validity::AtClose,
        Validity::DAY => Validity::Day,
        _ => Validity::LaterDay,
    }
}

// An order under its number, a side of a quote or not, as the columns hold it.
pub fn values_of(number: u32, quoted: bool, o: Order) -> Values
    ensures { result ≡ values_of (resting_as number quoted o) }
{
    Values {
        number,
        member: o.member.number(),
        side: u8::from(o.side),
        validity: u8::from(o.validity),
        left: o.quantity.number(),
        limit: u32::from(o.limit),
        quoted: u8::from(quoted),
    }
}

impl Values {
    // Those of a free place.
    pub fn empty() -> Values
        ensures { result ≡ empty_values }
    {
        Values {
            number: 0,
            left: 0,
            limit: 0,
            member: 0,
            side: 0,
            validity: 0,
            quoted: 0,
        }
    }
}

// What a column holds: a number, and the empty value 0 where a place is free.
pub trait Stored: Copy {
    ghost empty: { Self };

    fn empty() -> Self
        ensures { result ≡ empty };
}

impl Stored for u8 {
    ghost empty = { 0 };

    fn empty() -> u8 {
        0
    }
}

impl Stored for u16 {
    ghost empty = { 0 };

    fn empty() -> u16 {
        0
    }
}

impl Stored for u32 {
    ghost empty = { 0 };

    fn empty() -> u32 {
        0
    }
}

// A store in a column that is lent.
pub fn put<T: Copy>(column: &mut [T; Place::COUNT], place: usize, x: T)
    requires { place < places }
    ensures { column.new ≡ set column.old place x }
{
    column[place] = x;
}

impl Book {
    pub fn empty() -> Book
        ensures { result ≡ empty_book }
    {
        Book {
            taken: [0u64; WORDS],
            number: [0u32; Place::COUNT],
            member: [0u16; Place::COUNT],
            side: [0u8; Place::COUNT],
            validity: [0u8; Place::COUNT],
            left: [0u32; Place::COUNT],
            limit: [0u32; Place::COUNT],
            quoted: [0u8; Place::COUNT],
        }
    }

    // A change at a place: the word with its bit, and what each column holds there.
    pub fn write(&mut self, place: usize, word: u64, values: Values)
        requires { place < places }
        ensures { self.new ≡ written self.old (set self.old.taken (place / word_places) word) place values }
    {
        put_word(&mut self.taken, place / WORD_PLACES, word);
        put(&mut self.number, place, values.number);
        put(&mut self.member, place, values.member);
        put(&mut self.side, place, values.side);
        put(&mut self.validity, place, values.validity);
        put(&mut self.left, place, values.left);
        put(&mut self.limit, place, values.limit);
        put(&mut self.quoted, place, values.quoted);
    }

    // The least place whose resting order has this number and this member, or 512.
    pub fn place_of(&self, number: u32, member: u16) -> usize
        ensures { result ≡ place_in self.now.taken self.now.number self.now.member number member 0 places }
    {
        first_place(
            |from: usize| -> bool
                requires { from + 16 ≤ places }
                ensures { result ≡ has_number self.entry.now.number number from 16 }
            { holds(&self.number, from, number) },
            |place: usize| -> bool
                requires { place < places }
                ensures { result ≡ is_sought self.entry.now.taken self.entry.now.number self.entry.now.member number member place }
            {
                (self.number[place] == number)
                    && (self.member[place] == member)
                    && (bit_of(self.taken[place / WORD_PLACES], place % WORD_PLACES) == 1)
            },
        )
    }
}

// Places that are looked at together.
const GROUP: usize = 16;

// Whether one of these is this: told together, so that the machine compares them at once.
fn any_is<T: Copy + PartialEq>(xs: &[T], x: T) -> bool
    ensures { result ≡ fold (λ found y. found || T.eq y x) false xs.now }
{
    xs.iter().fold(false, |found, y| found | (*y == x))
}

// Whether one of sixteen places from one on holds this.
pub fn holds<T: Stored + PartialEq>(column: &[T; Place::COUNT], from: usize, x: T) -> bool
    requires { from + 16 ≤ places }
    ensures { result ≡ has_in T.eq T.empty column.now x from 16 }
{
    let all = &column[..];
    any_is(&all[from..from + GROUP], x)
}

// The first place that is sought, or 512. Sixteen places are looked at together first: only where one of them may be sought is each asked.
pub fn first_place<M: Fn(usize) -> bool + Drop, S: Fn(usize) -> bool + Drop>(
    may: M,
    sought: S,
) -> usize
    requires may_runs { (from : ℕ) → from + 16 ≤ places → M.pre may from }
    requires sought_runs { (p : ℕ) → p < places → S.pre sought p }
    requires may_says { (from p : ℕ) → from + 16 ≤ places → M.post may from false → from ≤ p → p < from + 16 → S.post sought p false }
    ensures within { result ≤ places }
    ensures found { result < places → S.post sought result true }
    ensures none_before { (p : ℕ) → p < result → S.post sought p false }
{
    for group in 0..Place::COUNT / GROUP {
        let from = group * GROUP;
        if may(from) {
            for place in from..from + GROUP {
                if sought(place) {
                    return place;
                }
            }
        }
    }
    Place::COUNT
}
