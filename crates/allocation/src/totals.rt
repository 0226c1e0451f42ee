// Guests' totals at one station, in a table of 32-bit numbers, and the greatest. The table is written by its index:
// after a `zip` of `iter_mut` nothing is known of what a list holds.
ghost use Rattle.std.specs.Prelude.{ℕ, ◌*◌, ◌<◌, ◌≤◌, ◌≡◌, length, get_or};
ghost use Rattle.model.specs.Limits.{max_price, max_amount};
ghost use Rattle.allocation.specs.Totals.{total_for, total_at, Gathered};

use crate::signed;
use model::money::{Mills, UnitPrice};

// A guest's total at a station, 0 where the bid is below the cut: the form of the definition `total_for`.
fn total_for(bid: UnitPrice, amount: u16, cut: UnitPrice) -> Mills
    ensures { result.0 ≡ total_for bid.0 amount cut.0 }
{
    if bid < cut {
        Mills(0)
    } else {
        bid.times(u32::from(amount))
    }
}

// Every guest's total at station j of m, and the greatest. It takes any lists that fit one another, as docs/DEMANDS.md
// says of it, and not an accepted market alone.
pub fn gather(
    bids: &[u32],
    amounts: &[u16],
    m: usize,
    j: usize,
    cut: UnitPrice,
    totals: &mut [u32],
) -> Mills
    requires bids_len { length bids.now ≡ length amounts.now * m }
    requires j_lt_m { (j < m) × (length totals.old ≡ length amounts.now) }
    requires by_index { (k : ℕ) → k < length bids.now → get_or bids.now k 0 ≤ max_price }
    requires by_index_2 { (k : ℕ) → k < length amounts.now → get_or amounts.now k 0 ≤ max_amount }
    ensures { Gathered (length amounts.now)
        (total_at bids.now amounts.now m j cut.0) totals.new result.0 }
{
    let mut top = Mills(0);
    for (i, amount) in amounts.iter().enumerate() {
        let bid = UnitPrice(bids[i * m + j]);
        let total = total_for(bid, *amount, cut);
        totals[i] = total.narrow();
        top = signed::larger(top, total);
    }
    top
}
