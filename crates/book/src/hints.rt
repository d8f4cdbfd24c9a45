// Hints: at which place an order of a number may rest. A hint is trusted for nothing: it only spares a search.
ghost use Rattle.std.specs.Prelude.{◌≡◌, ◌<◌};
ghost use Rattle.book.specs.Hints.{Numbered};
ghost use Rattle.book.specs.Resting.{place_in};
ghost use Rattle.terms.specs.Bounds.{places};

use crate::Book;
use places::{WORD_PLACES, bit_of};
use terms::Place;

// Numbers that are as far apart share one: eight times as many as places, so that few do.
pub const HINTS: usize = 8 * Place::COUNT;

pub fn hint(hints: &mut [u16; HINTS], number: u32, place: usize)
    requires { place < places }
{
    hints[number as usize % HINTS] = place as u16;
}

// A hint for each order that rests.
pub fn hint_all(hints: &mut [u16; HINTS], numbers: &[u32; Place::COUNT]) {
    for (place, number) in numbers.iter().enumerate() {
        hint(hints, *number, place);
    }
}

impl Book {
    // The place whose resting order has this number and this member, or 512. Numbers are distinct and up to the last given: a place with the
    // number answers for all, and without one the search goes through the book.
    pub fn place_by_hint(&self, hints: &[u16; HINTS], given: u32, number: u32, member: u16) -> usize
        requires { Numbered self.now.taken self.now.number given }
        ensures { result ≡ place_in self.now.taken self.now.number self.now.member number member 0 places }
    {
        if given < number {
            return Place::COUNT;
        }
        let place = usize::from(hints[number as usize % HINTS]);
        if place < Place::COUNT {
            if self.number[place] == number {
                if bit_of(self.taken[place / WORD_PLACES], place % WORD_PLACES) == 1 {
                    if self.member[place] == member {
                        return place;
                    }
                    return Place::COUNT;
                }
            }
        }
        self.place_of(number, member)
    }
}
