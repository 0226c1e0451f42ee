// What the house keeps: the sum of the charges above the least.
ghost use Rattle.std.specs.Prelude.{◌-◌, ◌<◌, ◌≤◌, ◌≡◌, length, get_or};
ghost use Rattle.model.specs.Limits.{max_guests};
ghost use Rattle.model.specs.Counting.{sum};

use model::money::Mills;

fn excess(charge: Mills, least: Mills) -> Mills
    ensures { result.0 ≡ charge.0 - least.0 }
{
    charge.max(least) - least
}

// What the charges exceed the least charges by, in all: whoever is charged nothing adds nothing. There is a least
// charge for each charge, and there are no more than a market has guests, so that the sum fits.
pub fn margin(charges: &[u32], least: &[u32]) -> Mills
    requires { (length least.now ≡ length charges.now) × (length charges.now ≤ max_guests) }
    ensures { result.0 ≡ sum (length charges.now)
        (λ i. get_or charges.now i 0 - get_or least.now i 0) }
{
    let mut r = Mills(0);
    for (charge, least) in charges.iter().zip(least) {
        r = r + excess(Mills::from(*charge), Mills::from(*least));
    }
    r
}
