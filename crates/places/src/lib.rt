// Places: which of the book's 512 are taken, as the bits of eight words (01 "Numbers and their bounds").
#![tactic(auto)]

mod words;

pub use words::{
    WORD_PLACES, WORDS, behind_taken, bit_of, count_taken, lowest_free, mark, put_word, unmark,
    with_bit, without_bit,
};
