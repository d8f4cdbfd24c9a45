// What stands at a place of a file: a record, a fault or the end (01 "Session file").
ghost use Rattle.std.specs.Prelude.{◌≡◌};
ghost use Rattle.records.specs.Pieces.{piece_at};

use crate::Piece;
use crate::kinds::{Header, Kind, header_at};

// Total: behind the end nothing stands. `ended` says that no more bytes will come.
pub(crate) fn piece_at(bytes: &[u8], place: usize, ended: bool) -> Piece
    ensures { result ≡ piece_at bytes.now place ended }
{
    if bytes.len() <= place {
        return if ended { Piece::End } else { Piece::Waits };
    }
    if bytes.len() - place < Kind::HEADER_LENGTH {
        return if ended { Piece::Fault } else { Piece::Waits };
    }
    match header_at(bytes, place) {
        Header::Record(record, next) => Piece::Record(record, next),
        Header::Cut => { if ended { Piece::Fault } else { Piece::Waits } }
        Header::Bad => Piece::Fault,
    }
}
