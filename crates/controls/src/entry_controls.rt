// Controls 5 to 8 of an entry (01 "Refusals by number"; 004 clause 10): a limit or a value that reaches its bound is a hit.
ghost use Rattle.std.specs.Prelude.{◌≡◌};
ghost use Rattle.controls.specs.Controls.{off_step, reaches_collar, reaches_most, reaches_most_at_reference};

use terms::{CollarFactor, Limit, OrderValue, Price, Quantity, Table, product};

// 5
pub fn off_step(table: Table, limit: Limit) -> bool
    ensures { result ≡ off_step table limit }
{
    match limit {
        Limit::Unlimited => false,
        Limit::At(p) => !table.on_step(p),
    }
}

// 6
pub fn reaches_collar(reference: Price, factor: CollarFactor, limit: Limit) -> bool
    ensures { result ≡ reaches_collar reference factor limit }
{
    match limit {
        Limit::Unlimited => false,
        Limit::At(p) => {
            let times = u32::from(factor.number());
            let middle = reference.number();
            let price = p.number();
            (product(middle, times) <= u64::from(price))
                | (product(price, times) <= u64::from(middle))
        }
    }
}

// 7
pub fn reaches_most(most: OrderValue, quantity: Quantity, limit: Limit) -> bool
    ensures { result ≡ reaches_most most quantity limit }
{
    match limit {
        Limit::Unlimited => false,
        Limit::At(p) => most.number() <= OrderValue::of(quantity, p),
    }
}

// 8
pub fn reaches_most_at_reference(most: OrderValue, quantity: Quantity, reference: Price) -> bool
    ensures { result ≡ reaches_most_at_reference most quantity reference }
{
    most.number() <= OrderValue::of(quantity, reference)
}
