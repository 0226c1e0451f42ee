// A guest's gain: what it obtains at its station, by its worths, less its charge.
ghost use Rattle.std.specs.Prelude.{◌*◌, ◌<◌, ◌≤◌, ◌^◌, ◌≡◌, length, get_or};
ghost use Rattle.model.specs.market.Mechanism.{at};
ghost use Rattle.whatif.specs.Gains.{gain_from};

use model::money::{Mills, UnitPrice};

// The worth of a station by its number, 0 for none as the lent lists have it, times the amount.
fn obtained(worths: &[u32], station: u16, amount: u16) -> Mills
    requires { station ≤ length worths.now }
    ensures { (result.0 ≡ at (λ j. get_or worths.now j 0 * amount) station) × (result.0 < 2 ^ 48) }
{
    if station == 0 {
        return Mills(0);
    }
    UnitPrice(worths[usize::from(station - 1)]).times(u32::from(amount))
}

// Both terms are below 2 to the 48th, so that the difference fits, and the `as` too, where a `TryFrom` could fail. A
// line, as `menu/rows` has of a worth: one function for both would be no shorter.
pub fn gain(worths: &[u32], station: u16, amount: u16, charge: u32) -> i64
    requires { station ≤ length worths.now }
    ensures { result ≡ gain_from worths.now station amount charge }
{
    obtained(worths, station, amount).0 as i64 - i64::from(charge)
}
