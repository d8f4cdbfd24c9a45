// Start, order and delete: the calls that a session's entries come in by, quotes apart. The promise of each is one equation: everything that it returns and the
// session after it (A1).
#![tactic(auto)]

mod changes;

ghost use Rattle.std.specs.Prelude.{◌≡◌};
ghost use Rattle.session.specs.Sound.{Sound};
ghost use Rattle.entries.specs.Entry.{started, entered as entry_entered, deleted as entry_deleted};

pub use changes::changed;
use controls::Phase;
use effects::{delete_effect, order_effect};
use refusals::Refusal;
use session::Session;
use terms::{Entry, Parameters, Start};

// What a call returns: `S` is `Session`, or a type around it (`desk`).
#[derive(Clone, Copy)]
pub struct Started<S> {
    // 0, or the refusal's number: the promises and A4 speak of numbers.
    pub answer: u8,
    pub session: S,
}

#[derive(Clone, Copy)]
pub struct Entered<S> {
    // 0, or the refusal's number: the promises and A4 speak of numbers.
    pub answer: u8,
    pub number: u32,
    pub session: S,
}

#[derive(Clone, Copy)]
pub struct Deleted<S> {
    // 0, or the refusal's number: the promises and A4 speak of numbers.
    pub answer: u8,
    pub session: S,
}

// Start: refusals 1, 3.
pub fn start(session: Session, start: Start) -> Started<Session>
    requires { Sound session }
    ensures { result ≡ started session start }
{
    let Ok(parameters) = Parameters::try_from(start) else {
        let answer = u8::from(Refusal::OutOfRange);
        return Started { answer, session };
    };
    if controls::has_started(session.phase) {
        let answer = u8::from(Refusal::Started);
        return Started { answer, session };
    }
    Started {
        answer: 0,
        session: Session {
            phase: Phase::PreOpening,
            parameters,
            reference: parameters.reference,
            ..session
        },
    }
}

// Order: refusals 1, 2, 4, 5, 6, 7, 8, 9, 10. An accepted order takes the next number and the lowest free place.
pub fn order(session: Session, e: Entry) -> Entered<Session>
    requires { Sound session }
    ensures { result ≡ entry_entered session e }
{
    let parameters = session.parameters;
    let effect = order_effect(
        session.phase,
        parameters,
        parameters.reference,
        false,
        session.given,
        &session.book.taken,
        e,
    );
    match effect {
        Err(refusal) => Entered {
            answer: u8::from(refusal),
            number: 0,
            session,
        },
        Ok(c) => Entered {
            answer: 0,
            number: c.given,
            session: changed(session, c),
        },
    }
}

// Delete: refusals 1, 2, 11. The place is free at once.
pub fn delete(session: Session, number: u32, member: u16) -> Deleted<Session>
    requires { Sound session }
    ensures { result ≡ entry_deleted session number member }
{
    let place = session.book.place_of(number, member);
    let effect = delete_effect(
        session.phase,
        session.given,
        &session.book.taken,
        place,
        number,
        member,
    );
    match effect {
        Err(refusal) => Deleted {
            answer: u8::from(refusal),
            session,
        },
        Ok(c) => Deleted {
            answer: 0,
            session: changed(session, c),
        },
    }
}
