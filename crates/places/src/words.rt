// Words: a place is taken where its bit is 1. Trailing ones pick the lowest free place, ones count the taken ones.
ghost use Rattle.std.specs.Prelude.{◌≡◌, ◌<◌, ◌≤◌, set};
ghost use Rattle.places.specs.Places.{word_places, word_count, bit, total, lowest_free, count_taken, behind_taken, with_bit, without_bit, marked_at, unmarked_at};
ghost use Rattle.places.specs.Words.{LowClear};

use terms::Place;

// Eight words of 64 places each.
pub const WORDS: usize = 8;

pub const WORD_PLACES: usize = 64;

// The bit k of a word.
pub fn bit_of(word: u64, k: usize) -> u64
    requires { k < word_places }
    ensures { result ≡ bit k word }
{
    (word >> k) % 2
}

// The lowest bit of a word that is not set, or 64.
fn low_clear(word: u64) -> usize
    ensures { LowClear word result }
{
    word.trailing_ones() as usize
}

fn set_bits(word: u64) -> usize
    ensures { (result ≡ total (λ k. bit k word) word_places) × (result ≤ word_places) }
{
    word.count_ones() as usize
}

// The lowest free place, or 512: in the first word with a place left, its lowest clear bit.
pub fn lowest_free(taken: &[u64; WORDS]) -> usize
    ensures { result ≡ lowest_free taken.now }
{
    for (j, &word) in taken.iter().enumerate() {
        if set_bits(word) < WORD_PLACES {
            return j * WORD_PLACES + low_clear(word);
        }
    }
    Place::COUNT
}

pub fn count_taken(taken: [u64; WORDS]) -> usize
    ensures { result ≡ count_taken taken }
{
    taken.iter().map(|word| set_bits(*word)).sum()
}

// Behind the last word with a taken place: from there on all places are free.
pub fn behind_taken(taken: &[u64; WORDS]) -> usize
    ensures { result ≡ behind_taken taken.now }
{
    for j in (0..WORDS).rev() {
        if taken[j] != 0 {
            return (j + 1) * WORD_PLACES;
        }
    }
    0
}

pub fn with_bit(word: u64, k: usize) -> u64
    requires { k < word_places }
    ensures { result ≡ with_bit k word }
{
    word | (1 << k)
}

pub fn without_bit(word: u64, k: usize) -> u64
    requires { k < word_places }
    ensures { result ≡ without_bit k word }
{
    if bit_of(word, k) == 1 {
        word - (1 << k)
    } else {
        word
    }
}

// A word stored in words that are lent.
pub fn put_word(words: &mut [u64; WORDS], j: usize, word: u64)
    requires { j < word_count }
    ensures { words.new ≡ set words.old j word }
{
    words[j] = word;
}

// A place marked as taken in words that are lent, or freed; 512 is no place, and leaves them as they are.
pub fn mark(words: &mut [u64; WORDS], place: usize)
    ensures { words.new ≡ marked_at words.old place }
{
    if place < Place::COUNT {
        let j = place / WORD_PLACES;
        words[j] = with_bit(words[j], place % WORD_PLACES);
    }
}

pub fn unmark(words: &mut [u64; WORDS], place: usize)
    ensures { words.new ≡ unmarked_at words.old place }
{
    if place < Place::COUNT {
        let j = place / WORD_PLACES;
        words[j] = without_bit(words[j], place % WORD_PLACES);
    }
}
