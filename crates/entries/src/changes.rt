// A change stored in a session.
ghost use Rattle.std.specs.Prelude.{◌≡◌, ◌<◌};
ghost use Rattle.terms.specs.Bounds.{places};
ghost use Rattle.entries.specs.Changes.{changed};

use effects::Change;
use session::Session;

// By value; a loop that holds a session writes the same in its own.
pub fn changed(mut session: Session, c: Change) -> Session
    requires { c.place < places }
    ensures { result ≡ changed session c }
{
    session.given = c.given;
    session.book.write(c.place, c.word, c.values);
    session
}
