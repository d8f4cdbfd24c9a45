// The book after an auction, column by column, from what rests at each place (01 "Outcomes"), up to behind the last taken place: from there on
// all is empty before and after.
ghost use Rattle.std.specs.Prelude.{◌≡◌, ◌≤◌};
ghost use Rattle.terms.specs.Bounds.{places};
ghost use Rattle.places.specs.Places.{behind_taken};
ghost use Rattle.book.specs.Settling.{kept_by, column_to, left_to, words_to, settled_to};

use crate::Book;
use crate::columns::Stored;
use places::{WORDS, behind_taken, unmark};
use terms::Place;

fn kept<T: Stored>(rest: u32, x: T) -> T
    ensures { result ≡ kept_by T.empty rest x }
{
    if rest == 0 { T::empty() } else { x }
}

// A column is emptied where nothing rests. The loops do nothing else, so that the compiler takes several places at a time.
pub fn settle_column<T: Stored>(
    column: &mut [T; Place::COUNT],
    rests: &[u32; Place::COUNT],
    end: usize,
)
    requires { end ≤ places }
    ensures { column.new ≡ column_to T.empty rests.now column.old end }
{
    for place in 0..end {
        column[place] = kept(rests[place], column[place]);
    }
}

// What rests is what is open from now on.
pub fn settle_left(lefts: &mut [u32; Place::COUNT], rests: &[u32; Place::COUNT], end: usize)
    requires { end ≤ places }
    ensures { lefts.new ≡ left_to rests.now lefts.old end }
{
    for place in 0..end {
        lefts[place] = rests[place];
    }
}

// A place where nothing rests is free.
pub fn settle_words(taken: &mut [u64; WORDS], rests: &[u32; Place::COUNT], end: usize)
    requires { end ≤ places }
    ensures { taken.new ≡ words_to rests.now taken.old end }
{
    for place in 0..end {
        let is_free = rests[place] == 0;
        if is_free {
            unmark(taken, place);
        }
    }
}

impl Book {
    fn settle_to(&mut self, rests: &[u32; Place::COUNT], end: usize)
        requires { end ≤ places }
        ensures { self.new ≡ settled_to rests.now self.old end }
    {
        settle_words(&mut self.taken, rests, end);
        settle_column(&mut self.number, rests, end);
        settle_column(&mut self.member, rests, end);
        settle_column(&mut self.side, rests, end);
        settle_column(&mut self.validity, rests, end);
        settle_left(&mut self.left, rests, end);
        settle_column(&mut self.limit, rests, end);
        settle_column(&mut self.quoted, rests, end);
    }

    // What rests at each place after an auction: each column is settled, up to behind the last taken place.
    pub fn settle(&mut self, rests: &[u32; Place::COUNT])
        ensures { self.new ≡ settled_to rests.now self.old (behind_taken self.old.taken) }
    {
        let end = behind_taken(&self.taken);
        self.settle_to(rests, end);
    }
}
