// The book: 512 places shared by both sides, as columns of numbers, and eight words that say which places are taken
// (01 "Numbers and their bounds"). A free place holds the empty value 0 in every column.
#![tactic(auto)]

mod columns;
mod hints;
mod settling;

pub use columns::{Stored, first_place, holds, put, validity_from, values_of};
pub use hints::{HINTS, hint, hint_all};
use places::WORDS;
pub use settling::{settle_column, settle_left, settle_words};
use terms::Place;

#[derive(Clone, Copy)]
pub struct Book {
    pub taken: [u64; WORDS],
    pub number: [u32; Place::COUNT],
    pub member: [u16; Place::COUNT],
    pub side: [u8; Place::COUNT],
    pub validity: [u8; Place::COUNT],
    pub left: [u32; Place::COUNT],
    pub limit: [u32; Place::COUNT],
    // 1 where the order is a side of a quote.
    pub quoted: [u8; Place::COUNT],
}

// What the columns hold at a place, the wide ones first: so a change travels in registers.
#[derive(Clone, Copy)]
pub struct Values {
    pub number: u32,
    pub left: u32,
    pub limit: u32,
    pub member: u16,
    pub side: u8,
    pub validity: u8,
    pub quoted: u8,
}
