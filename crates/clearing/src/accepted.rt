// The clearing of an accepted market, by either mechanism: they differ in the assignment alone. Lists that are lent to
// be written stay slices (model/lent), those of the result as they come over the C interface. Rooms are arrays of the
// most guests or station numbers, cut to those there are: there is no heap.
ghost use Rattle.std.specs.Prelude.{◌≡◌};
ghost use Rattle.model.specs.claims.Meaning.{RightLengths};
ghost use Rattle.model.specs.market.Outcome.{results, outcome_by, outcome_in};
ghost use Rattle.pricing.specs.CutAsk.{cut_ask};
ghost use Rattle.allocation.specs.Stages.{AtCut, EmptyBars};
ghost use Rattle.allocation.specs.Assignment.{GuestLists, Assigned};
ghost use Rattle.allocation.specs.Screens.{screened_at};
ghost use Rattle.clearing.specs.Decided.{decided, HasBars};
ghost use Rattle.clearing.specs.ClearsAccepted.{ClearsAccepted};

use allocation::assignment;
use model::answers::Figures;
use model::lent::AcceptedMarket;
use model::limits::{MAX_GUESTS, MAX_STATIONS};
use model::mechanism::Mechanism;
use model::money::UnitPrice;
use model::rule::Rule;
use pricing::{charges, cut, margin, sales};
use quiet::efficient;

// Every guest's station and charge. A truthful assignment leaves the critical total and the tie bound of each station
// number. The mechanism is chosen when the program runs, and named by the definition `decided`: a `match` on its enum
// is the plain form.
fn assign_by(
    mechanism: Mechanism,
    market: &AcceptedMarket<'_>,
    cut: UnitPrice,
    least: &[u32],
    criticals: &mut [u32],
    bounds: &mut [u32],
    stations: &mut [u16],
    charges: &mut [u32],
)
    requires at_cut { AtCut market.now cut.0 least.now }
    requires criticals_value { EmptyBars criticals.old bounds.old }
    requires stations_len { GuestLists market.now stations.old charges.old }
    ensures { let S = screened_at market.now cut.0 in
        Assigned (outcome_by S (decided mechanism S)) stations.new charges.new
        × HasBars mechanism market.now cut.0 criticals.new bounds.new }
{
    match mechanism {
        Mechanism::Truthful => assignment::assign_with_bars(
            market, cut, least, criticals, bounds, stations, charges,
        ),
        Mechanism::Efficient => {
            efficient::assign_all_efficient(market, cut, least, stations, charges)
        }
    }
}

// The clearing into lists of the right lengths, with room for what a truthful one leaves of each station number.
pub fn clear_with_bars(
    mechanism: Mechanism,
    rule: Rule,
    market: &AcceptedMarket<'_>,
    criticals: &mut [u32],
    bounds: &mut [u32],
    stations: &mut [u16],
    charges: &mut [u32],
    sold: &mut [u32],
    paid: &mut [u64],
) -> Figures
    requires right_lengths { RightLengths market.now (results stations.old charges.old sold.old paid.old) }
    requires criticals_value { EmptyBars criticals.old bounds.old }
    ensures clears { ClearsAccepted (outcome_in mechanism rule market.now) result
        (results stations.new charges.new sold.new paid.new) }
    ensures cut { result.cut.0 ≡ cut_ask rule market.now.asks }
    ensures bars { HasBars mechanism market.now result.cut.0 criticals.new bounds.new }
{
    let mut room = [0u32; MAX_GUESTS];
    let least = &mut room[..market.amounts.len()];
    let cut = cut::cut(rule, market.asks);
    charges::least_charges(market.amounts, cut, least);
    assign_by(
        mechanism, market, cut, least, criticals, bounds, stations, charges,
    );
    sales::sell(stations, market.amounts, cut, sold, paid);
    let margin = margin::margin(charges, least);
    Figures { cut, margin }
}

// The same for a caller that asks for no bars, with room of its own.
pub(crate) fn clear_accepted(
    mechanism: Mechanism,
    rule: Rule,
    market: &AcceptedMarket<'_>,
    stations: &mut [u16],
    charges: &mut [u32],
    sold: &mut [u32],
    paid: &mut [u64],
) -> Figures
    requires { RightLengths market.now (results stations.old charges.old sold.old paid.old) }
    ensures { ClearsAccepted (outcome_in mechanism rule market.now) result
        (results stations.new charges.new sold.new paid.new) }
{
    let mut criticals = [0u32; MAX_STATIONS + 1];
    let mut bounds = [0u32; MAX_STATIONS + 1];
    clear_with_bars(
        mechanism,
        rule,
        market,
        &mut criticals,
        &mut bounds,
        stations,
        charges,
        sold,
        paid,
    )
}
