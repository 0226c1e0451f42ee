// A guest's price list and gains, in an accepted market. The lists are lent one by one, as they come over the C
// interface. The rooms are arrays of the most guests or stations, cut to those there are: there is no heap.
ghost use Rattle.std.specs.Prelude.{◌≡◌, length, get_or};
ghost use Rattle.model.specs.market.Menus.{price_list_by, gains_from};
ghost use Rattle.model.specs.market.Rules.{position};
ghost use Rattle.model.specs.clauses.Lent.{price_list_lent, price_list_out};
ghost use Rattle.menu.specs.Accepted.{Listable, Gainable};

use crate::listing;
use crate::rows::Offers;
use model::lent::AcceptedMarket;
use model::limits::{MAX_GUESTS, MAX_STATIONS};
use model::rule::Rule;
use pricing::cut;

// The guest counts from 0.
pub fn list_accepted(
    rule: Rule,
    market: &AcceptedMarket<'_>,
    i: usize,
    bars: &mut [u32],
    prices: &mut [u32],
)
    requires { Listable market.now i (price_list_lent bars prices) }
    ensures { price_list_out bars prices ≡ price_list_by (position rule) market.now i }
{
    let mut totals = [0u32; MAX_GUESTS];
    let n = market.amounts.len();
    let cut = cut::cut(rule, market.asks);
    listing::list_stations(market, cut, i, &mut totals[..n], bars, prices);
}

// The gain of each row.
pub fn gain_accepted(
    rule: Rule,
    market: &AcceptedMarket<'_>,
    i: usize,
    worths: &[u32],
    rows: &[u32],
    gains: &mut [i64],
)
    requires { Gainable market.now i worths.now rows.now (length gains.old) }
    ensures { let t = market.now in
        gains.new ≡ gains_from (price_list_by (position rule) t i) (get_or t.amounts i 0)
        worths.now (length t.asks) rows.now (length gains.old) }
{
    let amounts = market.amounts;
    let m = market.asks.len();
    let mut bars = [0u32; MAX_STATIONS];
    let mut prices = [0u32; MAX_STATIONS];
    let bars = &mut bars[..m];
    let prices = &mut prices[..m];
    list_accepted(rule, market, i, bars, prices);
    let offers = Offers {
        bars,
        prices,
        amount: amounts[i],
        worths,
    };
    offers.gain_rows(rows, gains);
}
