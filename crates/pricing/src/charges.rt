// The least charges, and the charges of those who chose a station. Lists are written by their index: after a `zip` of
// `iter_mut` nothing is known of what a list holds.
ghost use Rattle.std.specs.Prelude.{ℕ, ◌*◌, ◌<◌, ◌≤◌, max, ◌≡◌, length, get_or};
ghost use Rattle.model.specs.Limits.{max_price, max_amount};
ghost use Rattle.model.specs.Counting.{◌<?◌, only, list};
ghost use Rattle.pricing.specs.Charges.{least_at, Chargeable, Charged};

use model::money::{Mills, UnitPrice};

fn least_charge(cut: UnitPrice, amount: u16) -> Mills
    ensures { result.0 ≡ cut.0 * amount }
{
    cut.times(u32::from(amount))
}

// Cut times amount for each guest, where both are within their limits.
pub fn least_charges(amounts: &[u16], cut: UnitPrice, least: &mut [u32])
    requires least_len { (length least.old ≡ length amounts.now) × (cut.0 ≤ max_price) }
    requires by_index { (k : ℕ) → k < length amounts.now → get_or amounts.now k 0 ≤ max_amount }
    ensures { least.new
        ≡ list (length amounts.now) (least_at amounts.now cut.0) }
{
    for (i, amount) in amounts.iter().enumerate() {
        least[i] = least_charge(cut, *amount).narrow();
    }
}

// The charge at a station by its number and critical total; nothing at number 0, which is none. A number and no
// `Option`: so the result lists hold it, by document 01 and in the C interface.
fn charge_at(station: u32, least: Mills, critical: Mills) -> Mills
    ensures { result.0 ≡ only (0 <? station) (max least.0 critical.0) }
{
    if 0 < station {
        least.max(critical)
    } else {
        Mills(0)
    }
}

// Each guest's station and charge, from the station chosen and the critical total of each station number. All have
// chosen one of the stations or none, and every charge fits 32 bits: that is what is required. A station number fits
// usize, for which std has no `From`, and 16 bits: a `TryFrom` could fail, which this cannot.
pub fn charge_guests(
    chosen: &[u32],
    least: &[u32],
    criticals: &[u32],
    stations: &mut [u16],
    charges: &mut [u32],
)
    requires { Chargeable chosen.now least.now criticals.now stations.old charges.old }
    ensures { Charged chosen.now least.now criticals.now
        stations.new charges.new }
{
    for (i, s) in chosen.iter().enumerate() {
        let critical = Mills::from(criticals[*s as usize]);
        stations[i] = *s as u16;
        charges[i] = charge_at(*s, Mills::from(least[i]), critical).narrow();
    }
}
