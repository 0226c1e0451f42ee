// The cut: the ask at its rule's position in a list of asks. All functions ask the same of the list, no more asks than
// a market has stations; a market in its place would ask more.
ghost use Rattle.std.specs.Prelude.{◌≤◌, max, ◌≡◌, length};
ghost use Rattle.model.specs.Limits.{max_stations};
ghost use Rattle.model.specs.market.Rules.{position as position_of};
ghost use Rattle.pricing.specs.CutAsk.{under, eligible, cut_ask};

use model::money::UnitPrice;
use model::rule::Rule;

// How many asks lie below x, in 32 bits: `filter` and `count`, in 64, took half as long again (in Rust).
fn count_below(asks: &[u32], x: UnitPrice) -> u32
    requires { length asks.now ≤ max_stations }
    ensures { result ≡ under asks.now x.0 }
{
    let mut n: u32 = 0;
    for ask in asks {
        if UnitPrice(*ask) < x {
            n += 1;
        }
    }
    n
}

// x where it is greater than r and fewer than `position` asks lie below it, else r. The cast is to a type no smaller,
// for which std has no `From`.
fn raised(asks: &[u32], r: UnitPrice, x: UnitPrice, position: usize) -> UnitPrice
    requires { length asks.now ≤ max_stations }
    ensures { result.0 ≡ max r.0 (eligible asks.now position x.0) }
{
    let below = count_below(asks, x) as usize;
    if below < position { r.max(x) } else { r }
}

// The position of the cut among m asks, from 1. The rule is a value that a call names, with its two meanings side by
// side in document 01: a `match`, and no closure.
fn position(rule: Rule, m: usize) -> usize
    requires { m ≤ max_stations }
    ensures { result ≡ position_of rule m }
{
    match rule {
        Rule::Median => m / 2 + 1,
        Rule::TwoThirds => 2 * m / 3 + 1,
    }
}

// The cut: the ask at the rule's position in rising order, by counting.
pub fn cut(rule: Rule, asks: &[u32]) -> UnitPrice
    requires { length asks.now ≤ max_stations }
    ensures { result.0 ≡ cut_ask rule asks.now }
{
    let position = position(rule, asks.len());
    let mut r = UnitPrice(0);
    for ask in asks {
        r = raised(asks, r, UnitPrice(*ask), position);
    }
    r
}
