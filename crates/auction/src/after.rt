// After an auction: which rests are deleted (01 "Outcomes").
ghost use Rattle.std.specs.Prelude.{◌≡◌};
ghost use Rattle.auction.specs.After.{ends};
ghost use Rattle.auction.specs.Ended.{rest_with, ended};

use book::validity_from;
use terms::{Auction, Place, Validity};

// Rests with this validity are deleted: after opening 1, after closing 1, 2 and 3.
fn ends(auction: Auction, validity: Validity) -> bool
    ensures { result ≡ ends auction validity }
{
    match auction {
        Auction::Opening => match validity {
            Validity::AtOpening => true,
            Validity::AtClose => false,
            Validity::Day => false,
            Validity::LaterDay => false,
        },
        Auction::Closing => match validity {
            Validity::AtOpening => true,
            Validity::AtClose => true,
            Validity::Day => true,
            Validity::LaterDay => false,
        },
    }
}

// What rests of an order of this validity, as the column holds it.
fn rest_with(auction: Auction, validity: u8, left: u32) -> u32
    ensures { result ≡ rest_with auction validity left }
{
    if ends(auction, validity_from(validity)) {
        0
    } else {
        left
    }
}

// What is left at each place becomes what rests there. The loop does nothing else, so that the compiler takes several at a time.
pub fn end_rests(lefts: &mut [u32; Place::COUNT], auction: Auction, validities: &[u8; Place::COUNT])
    ensures { lefts.new ≡ ended auction validities.now lefts.old }
{
    for place in 0..Place::COUNT {
        lefts[place] = rest_with(auction, validities[place], lefts[place]);
    }
}
