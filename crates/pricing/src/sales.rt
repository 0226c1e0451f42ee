// What each station sold and is paid.
ghost use Rattle.std.specs.Prelude.{◌<◌, ◌≤◌, ◌≡◌, length, get_or};
ghost use Rattle.model.specs.Limits.{max_stations};
ghost use Rattle.model.specs.Counting.{list};
ghost use Rattle.pricing.specs.Sales.{kwh_at, slots, slot_of, kwh_in, Sellable, PaidOut};

use model::limits::MAX_STATIONS;
use model::money::UnitPrice;

// Where the kWh of guest i with station number s are added. Those with none, number 0 as in the result lists, spread
// over the places past the last number: in one place, each addition would wait for the one before.
fn slot(s: usize, i: usize) -> usize
    requires { s ≤ max_stations }
    ensures { (result < slots) × (result ≡ slot_of s i) }
{
    if 0 < s { s } else { MAX_STATIONS + 1 + i % 4 }
}

// The kWh of each place: kwh[s] is what the guests with station number s take. The guest's number is needed beside both
// lists, for the place.
fn tally_sales(stations: &[u16], amounts: &[u16], kwh: &mut [u32])
    requires sellable { Sellable stations.now amounts.now }
    requires kwh_value { kwh.old ≡ list slots (λ _. 0) }
    ensures { kwh.new ≡ list slots (kwh_in stations.now amounts.now) }
{
    for (i, amount) in amounts.iter().enumerate() {
        let s = slot(usize::from(stations[i]), i);
        kwh[s] += u32::from(*amount);
    }
}

// What each station sold and is paid, from the kWh of each station number. Both lists are written by their index: after
// a `zip` of `iter_mut` nothing is known of what a list holds.
fn pay_out(kwh: &[u32], cut: UnitPrice, sold: &mut [u32], paid: &mut [u64])
    requires { (length sold.old < length kwh.now) × (length paid.old ≡ length sold.old) }
    ensures { PaidOut (λ s. get_or kwh.now s 0) cut.0
        (length sold.old) sold.new paid.new }
{
    for j in 0..sold.len() {
        let x = kwh[j + 1];
        sold[j] = x;
        paid[j] = cut.times(x).0;
    }
}

// What each station sold and is paid, from each guest's station number. The kWh of the places stand in a table of the
// greatest size: no heap is used.
pub fn sell(stations: &[u16], amounts: &[u16], cut: UnitPrice, sold: &mut [u32], paid: &mut [u64])
    requires sellable { Sellable stations.now amounts.now }
    requires sold_len_bound { (length sold.old ≤ max_stations) × (length paid.old ≡ length sold.old) }
    ensures { PaidOut (kwh_at stations.now amounts.now) cut.0
        (length sold.old) sold.new paid.new }
{
    let mut kwh = [0u32; MAX_STATIONS + 5];
    tally_sales(stations, amounts, &mut kwh);
    pay_out(&kwh, cut, sold, paid);
}
