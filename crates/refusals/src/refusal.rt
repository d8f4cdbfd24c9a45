// Why a call is refused: each refusal has the number of 01 "Refusals by number".
ghost use Rattle.std.specs.Prelude.{◌≡◌};
ghost use Rattle.refusals.specs.Numbers.{refusal_number, refused_when};
ghost use Rattle.refusals.specs.declared.refusal.Refusal.{Refusal};

use std::error::Error;
use std::fmt;
use terms::OutOfRange;

#[derive(Clone, Copy, Debug, PartialEq, Eq)]
pub enum Refusal {
    OutOfRange,
    NotStarted,
    Started,
    PhaseForbids,
    OffStep,
    ReachesCollar,
    ReachesMost,
    ReachesMostAtReference,
    NumbersGiven,
    PlacesTaken,
    NoSuchOrder,
    TooShort,
    Crossed,
    // An entry by a thirty-third member (02 K5).
    MembersEntered,
}

impl Refusal {
    // This refusal where its rule hits.
    pub fn when(self, hit: bool) -> Result<(), Refusal>
        ensures { result ≡ refused_when hit self }
    {
        if hit { Err(self) } else { Ok(()) }
    }
}

impl From<OutOfRange> for Refusal {
    ghost from_gives = { λ _ r. r ≡ Refusal.OutOfRange };

    fn from(_: OutOfRange) -> Refusal {
        Refusal::OutOfRange
    }
}

impl From<Refusal> for u8 {
    ghost from_gives = { λ r n. n ≡ refusal_number r };

    fn from(refusal: Refusal) -> u8 {
        match refusal {
            Refusal::OutOfRange => 1,
            Refusal::NotStarted => 2,
            Refusal::Started => 3,
            Refusal::PhaseForbids => 4,
            Refusal::OffStep => 5,
            Refusal::ReachesCollar => 6,
            Refusal::ReachesMost => 7,
            Refusal::ReachesMostAtReference => 8,
            Refusal::NumbersGiven => 9,
            Refusal::PlacesTaken => 10,
            Refusal::NoSuchOrder => 11,
            Refusal::TooShort => 12,
            Refusal::Crossed => 13,
            Refusal::MembersEntered => 16,
        }
    }
}

impl fmt::Display for Refusal {
    fn fmt<W: fmt::Write>(&self, f: &mut fmt::Formatter<W>) -> fmt::Result {
        write!(f, "refused with {}", u8::from(*self))
    }
}

impl Error for Refusal {}
