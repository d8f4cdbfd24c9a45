// Whether a record's fields are in their ranges, by the constructors with which the calls test them: no range is said anew
// (01 "Refusals by number", 1; K1).
ghost use Rattle.std.specs.Prelude.{◌≡◌, ◌&&◌};
ghost use Rattle.terms.specs.Kinds.{is_number, is_member};
ghost use Rattle.terms.specs.Orders.{is_entry, is_auction};
ghost use Rattle.terms.specs.Parameters.{is_start};
ghost use Rattle.terms.specs.Quotes.{is_quote};
ghost use Rattle.records.specs.Fields.{in_range};

use crate::kinds::Record;
use terms::{Auction, Member, Number, Order, Parameters, Quote};

// Every field of a record is in its range.
pub fn in_range(record: Record) -> bool
    ensures { result ≡ in_range «record» }
{
    match record {
        Record::Start(one_step) => Parameters::try_from(one_step.as_start()).is_ok(),
        Record::Order(entry) => Order::try_from(entry).is_ok(),
        Record::Delete(deletion) => {
            Number::try_from(deletion.number).is_ok() & Member::try_from(deletion.member).is_ok()
        }
        Record::Auction(which) => Auction::try_from(which).is_ok(),
        // A bid that is not below its ask is in range: the call refuses it by 13 (02 K2).
        Record::Quote(entry) => Quote::try_from(entry).is_ok(),
        Record::Bands(start) => Parameters::try_from(start).is_ok(),
    }
}
