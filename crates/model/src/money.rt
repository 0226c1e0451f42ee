// Unit prices and whole mills. Tables between loops hold them as plain numbers.
ghost use Rattle.std.specs.Prelude.{◌+◌, ◌*◌, ◌-◌, ◌<◌, ◌≤◌, ◌^◌, ◌≡◌};

use std::ops::{Add, Sub};

// Mills per kWh: an ask, a bid, the cut.
#[derive(Clone, Copy, PartialEq, Eq, PartialOrd, Ord)]
pub struct UnitPrice(pub u32);

// Whole mills: a total, a charge, a payment, a margin.
#[derive(Clone, Copy, PartialEq, Eq, PartialOrd, Ord)]
pub struct Mills(pub u64);

impl UnitPrice {
    // The way from a unit price to whole mills.
    pub fn times(self, kwh: u32) -> Mills
        ensures { result.0 ≡ self.0 * kwh }
    {
        Mills(u64::from(self.0) * u64::from(kwh))
    }
}

// From a table of whole mills in 32 bits: totals, charges, gains.
impl From<u32> for Mills {
    ghost from_gives = { λ x r. r.0 ≡ x };

    fn from(x: u32) -> Mills {
        Mills(u64::from(x))
    }
}

impl Mills {
    // Into such a table. A `TryFrom` would make every caller answer for a number that does not fit.
    pub fn narrow(self) -> u32
        requires { self.0 < 2 ^ 32 }
        ensures { result ≡ self.0 }
    {
        self.0 as u32
    }
}

// The sum has to fit: nothing wraps.
impl Add for Mills {
    type Output = Mills;

    ghost can_add = { λ a b. a.0 + b.0 < 2 ^ 64 };

    ghost add_gives = { λ a b r. r.0 ≡ a.0 + b.0 };

    fn add(self, other: Mills) -> Mills {
        Mills(self.0 + other.0)
    }
}

// No more is taken away than there is.
impl Sub for Mills {
    type Output = Mills;

    ghost can_sub = { λ a b. b.0 ≤ a.0 };

    ghost sub_gives = { λ a b r. r.0 ≡ a.0 - b.0 };

    fn sub(self, other: Mills) -> Mills {
        Mills(self.0 - other.0)
    }
}
