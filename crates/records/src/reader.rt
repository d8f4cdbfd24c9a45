// The walk over a lent file: a thin struct of the file and the place reached, above `piece_at`.
ghost use Rattle.std.specs.Prelude.{◌≡◌};
ghost use Rattle.records.specs.Pieces.{piece_at};

use crate::Piece;
use crate::walk::piece_at;

#[derive(Clone, Copy)]
pub struct Reader<'a> {
    pub file: &'a [u8],
    pub place: usize,
}

impl<'a> Reader<'a> {
    // What stands at the place reached. `ended` says that no more bytes will come.
    pub fn next(self, ended: bool) -> Piece
        ensures { result ≡ piece_at self.entry.file.now self.entry.place ended }
    {
        piece_at(self.file, self.place, ended)
    }
}

// What a reader finds at a place; who asks holds no reader.
pub fn read_at(bytes: &[u8], place: usize, ended: bool) -> Piece
    ensures { result ≡ piece_at bytes.now place ended }
{
    Reader { file: bytes, place }.next(ended)
}
