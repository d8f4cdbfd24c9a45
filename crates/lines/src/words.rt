// The words of lines: a kind of record has one, and as many numbers behind its answer (01 "Session file"; 02 K2).
ghost use Rattle.std.specs.Prelude.{◌≡◌, ◌∷◌, ◌+◌, ◌≤◌, length};
ghost use Rattle.text.specs.Text.{space};
ghost use Rattle.lines.specs.Words.{word_text, word_numbers, word_room};
ghost use Rattle.lists.specs.Put.{Wrote};

use text::put_bytes;

// The word of a line: the kind of record that it is about.
#[derive(Clone, Copy)]
pub enum Word {
    Start,
    Order,
    Delete,
    Auction,
    Quote,
}

// A word behind a space. Each is a literal, so that it is a few stores.
pub(crate) fn put_word(out: &mut [u8], at: usize, word: Word) -> usize
    requires { at + word_room ≤ length out.old }
    ensures { Wrote out.old out.new at result (space ∷ word_text word) }
{
    match word {
        Word::Start => put_bytes(out, at, b" start"),
        Word::Order => put_bytes(out, at, b" order"),
        Word::Delete => put_bytes(out, at, b" delete"),
        Word::Auction => put_bytes(out, at, b" auction"),
        Word::Quote => put_bytes(out, at, b" quote"),
    }
}

// How many numbers follow a word's answer.
pub(crate) fn word_numbers(word: Word) -> usize
    ensures { result ≡ word_numbers word }
{
    match word {
        Word::Start => 0,
        Word::Order => 1,
        Word::Delete => 0,
        Word::Auction => 4,
        Word::Quote => 2,
    }
}
