// The critical total of a station: bisection over its guests' totals.
ghost use Rattle.std.specs.Prelude.{◌+◌, ◌-◌, ◌/◌, ◌<◌, ◌≤◌, ◌≡◌, length};
ghost use Rattle.model.specs.Limits.{max_guests};
ghost use Rattle.model.specs.Counting.{◌≤?◌, only};
ghost use Rattle.allocation.specs.Totals.{max_total, Totals};
ghost use Rattle.allocation.specs.Selection.{above, greatest_up_to, Selected};

use crate::signed;
use model::money::Mills;

// How many are above t.
fn count_above(xs: &[u32], t: Mills) -> u32
    requires { (length xs.now ≤ max_guests) × Totals xs.now × (t.0 ≤ max_total) }
    ensures { result ≡ above xs.now t.0 }
{
    let mut n: u32 = 0;
    for x in xs {
        if signed::below(t, Mills::from(*x)) {
            n += 1;
        }
    }
    n
}

// A total that is at most t, else 0, which no maximum sees.
fn capped(x: Mills, t: Mills) -> Mills
    requires { (x.0 ≤ max_total) × (t.0 ≤ max_total) }
    ensures { result.0 ≡ only (x.0 ≤? t.0) x.0 }
{
    if signed::below(t, x) { Mills(0) } else { x }
}

// The greatest element that is at most t, 0 for none: the form of the definition `greatest_up_to`.
fn largest_at_most(xs: &[u32], t: Mills) -> Mills
    requires { Totals xs.now × (t.0 ≤ max_total) }
    ensures { result.0 ≡ greatest_up_to xs.now t.0 }
{
    let mut r = Mills(0);
    for x in xs {
        r = signed::larger(r, capped(Mills::from(*x), t));
    }
    r
}

// Halfway between the two.
fn middle(low: Mills, high: Mills) -> Mills
    requires { low.0 ≤ high.0 }
    ensures { result.0 ≡ low.0 + (high.0 - low.0) / 2 }
{
    Mills(low.0 + (high.0 - low.0) / 2)
}

// A station's critical total, and how many totals are above it.
#[derive(Clone, Copy)]
pub struct Critical {
    pub total: Mills,
    pub above: u32,
}

// The critical total (document 01: the floor) of a station with b bays: the total at place b + 1 in falling order, 0
// where there are no more than b; no total is above top. By bisection on the value, with a count at each step. The
// first probe is just below the greatest: many may be tied there, and a single bay needs no other.
pub fn critical_total(totals: &[u32], top: Mills, b: u32) -> Critical
    requires totals_len_bound { (length totals.now ≤ max_guests) × (above totals.now top.0 ≡ 0) }
    requires totals { Totals totals.now × (top.0 ≤ max_total) }
    ensures { Selected totals.now b result.total.0 result.above }
{
    let candidates = count_above(totals, Mills(0));
    if candidates <= b {
        return Critical {
            total: Mills(0),
            above: candidates,
        };
    }
    let last = top - Mills(1);
    let near = count_above(totals, last);
    if b < near {
        return Critical {
            total: top,
            above: 0,
        };
    }
    if near == b {
        return Critical {
            total: largest_at_most(totals, last),
            above: near,
        };
    }
    let mut low = Mills(0);
    let mut high = top;
    // A bisection counts no index: it ends where the two meet.
    while low < high {
        let mid = middle(low, high);
        let c = count_above(totals, mid);
        if c == b {
            return Critical {
                total: largest_at_most(totals, mid),
                above: c,
            };
        }
        if c < b {
            high = mid;
        } else {
            low = mid + Mills(1);
        }
    }
    Critical {
        total: high,
        above: count_above(totals, high),
    }
}
