// Whether a candidate holds a place at a station, by the station's critical total and tie bound.
ghost use Rattle.std.specs.Prelude.{◌+◌, ◌≤◌, ◌≡◌};
ghost use Rattle.model.specs.Counting.{◌<?◌, only};
ghost use Rattle.allocation.specs.Offers.{won_by};
ghost use Rattle.allocation.specs.Totals.{max_total};

use crate::signed;
use model::money::Mills;

// A total with one mill more where the ticket is below the bound.
fn credited(total: Mills, ticket: u32, bound: u32) -> Mills
    requires { total.0 ≤ max_total }
    ensures { result.0 ≡ total.0 + only (ticket <? bound) 1 }
{
    if ticket < bound {
        total + Mills(1)
    } else {
        total
    }
}

// Whether a candidate of this total and ticket holds a place. The critical total may be one past every total, where
// nobody is to hold one.
pub fn holds(total: Mills, critical: Mills, ticket: u32, bound: u32) -> bool
    requires { (total.0 ≤ max_total) × (critical.0 ≤ max_total + 1) }
    ensures { result ≡ won_by total.0 critical.0 ticket bound }
{
    signed::below(critical, credited(total, ticket, bound))
}
