// Each station's floor and bar, from the critical totals of the station numbers. Lists are written by their index:
// after a `zip` of `iter_mut` nothing is known of what a list holds.
ghost use Rattle.std.specs.Prelude.{◌+◌, ◌<◌, ◌≡◌, length, get_or};
ghost use Rattle.model.specs.Counting.{list};
ghost use Rattle.marking.specs.Places.{bar_by, bar_at};

use model::money::UnitPrice;

// One mill more than any total.
const PAST_ALL_TOTALS: u32 = 1_000_000_001;

// A floor is the critical total, which is 0 at a station that is not open.
pub fn give_floors(criticals: &[u32], floors: &mut [u32])
    requires { length floors.old < length criticals.now }
    ensures { floors.new ≡ list (length floors.old) (λ j. get_or criticals.now (j + 1) 0) }
{
    let m = floors.len();
    floors.copy_from_slice(&criticals[1..m + 1]);
}

// What a total is held to: the critical total, and at a station that is not open what no total passes.
#[tactic(auto, unfolding(crate::specs::Places::bar_by), using(model::proofs::Compared::lt_is))]
fn bar(ask: UnitPrice, cut: UnitPrice, critical: u32) -> u32
    ensures { result ≡ bar_by ask.0 cut.0 critical }
{
    if ask < cut { critical } else { PAST_ALL_TOTALS }
}

// The bar of each station, of as many critical totals.
pub fn give_bars(asks: &[u32], cut: UnitPrice, criticals: &[u32], bars: &mut [u32])
    requires { (length asks.now < length criticals.now) × (length bars.old ≡ length asks.now) }
    ensures { bars.new ≡ list (length asks.now) (bar_at asks.now cut.0 criticals.now) }
{
    for (j, ask) in asks.iter().enumerate() {
        bars[j] = bar(UnitPrice(*ask), cut, criticals[j + 1]);
    }
}
