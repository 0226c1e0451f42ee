// Scans of lists: whether a value is out of range.
ghost use Rattle.std.specs.Prelude.{◌≡◌};
ghost use Rattle.model.specs.Limits.{max_price};
ghost use Rattle.model.specs.Counting.{◌or◌, any};
ghost use Rattle.model.specs.market.Faults.{outside};
ghost use Rattle.checks.specs.Ranges.{some_outside};

use model::limits::MAX_PRICE;

// Whether an element is outside low to high. No way out before the end: several elements a step.
pub fn any_outside<T: Copy + PartialOrd>(xs: &[T], low: T, high: T) -> bool
    ensures { result ≡ some_outside T.partial_cmp low high xs.now }
{
    xs.iter()
        .fold(false, |bad, x| bad | ((*x < low) | (high < *x)))
}

// Whether a price of either list is.
pub fn prices_out_of_range(first: &[u32], second: &[u32]) -> bool
    ensures { result ≡ (any first.now (outside 0 max_price) or any second.now (outside 0 max_price)) }
{
    any_outside(first, 0, MAX_PRICE) | any_outside(second, 0, MAX_PRICE)
}
