// Keys by which one maximum finds a row's station, with no product of bid and amount (specs/Keys). Lists are written by
// their index: after a `zip` of `iter_mut` nothing is known of what a list holds. A row is read by it beside one list
// and beside two, of which a `zip` would nest.
ghost use Rattle.std.specs.Prelude.{ℕ, ◌+◌, ◌/◌, ◌%◌, ◌<◌, ◌≤◌, ◌≡◌, length, get_or};
ghost use Rattle.model.specs.Limits.{max_stations, max_price};
ghost use Rattle.model.specs.Counting.{◌≤?◌, only, greatest, list};
ghost use Rattle.menu.specs.Keys.{rest_before, label_by, least_within, lift as liftOf, plain_key, key_from};
ghost use Rattle.menu.specs.Holds.{Holds, HoldsRows, Row, row_key};

use allocation::signed;
use model::limits::MAX_PRICE;
use std::marker::Model;

// 64 times the greatest bid.
const HIGHEST: u32 = 64 * MAX_PRICE;

// By the rests a and b, then by the indices.
fn goes_before(a: u32, b: u32, k: usize, j: usize) -> bool
    ensures { result ≡ rest_before a b k j }
{
    (a, k) < (b, j)
}

// The rest of each price, divided by the amount.
pub fn fill_rests(prices: &[u32], amount: u32, rests: &mut [u32])
    requires { (length rests.old ≡ length prices.now) × (0 < amount) }
    ensures { rests.new
        ≡ list (length prices.now) (λ j. get_or prices.now j 0 % amount) }
{
    for (j, price) in prices.iter().enumerate() {
        rests[j] = *price % amount;
    }
}

// One more than how many stations go after station j.
fn label(rests: &[u32], j: usize) -> u32
    requires { (j < length rests.now) × (length rests.now ≤ max_stations) }
    ensures { result ≡ label_by rests.now j }
{
    let own = rests[j];
    let mut n: u32 = 0;
    for (k, rest) in rests.iter().enumerate() {
        if goes_before(own, *rest, j, k) {
            n += 1;
        }
    }
    n + 1
}

// For each station.
pub fn fill_labels(rests: &[u32], labels: &mut [u32])
    requires { (length labels.old ≡ length rests.now) × (length rests.now ≤ max_stations) }
    ensures { labels.new ≡ list (length rests.now) (label_by rests.now) }
{
    for (j, place) in labels.iter_mut().enumerate() {
        *place = label(rests, j);
    }
}

// The least bid whose total reaches a bar, or one above every bid.
pub fn least_bid(bar: u32, amount: u32) -> u32
    requires { 0 < amount }
    ensures { result ≡ least_within bar amount }
{
    bar.div_ceil(amount).min(MAX_PRICE + 1)
}

// What is added to 64 times the bid: 64 times what the greatest bid is above the price's quotient, and the label;
// nothing where no bid comes to the bar.
pub fn lift(least: u32, price: u32, amount: u32, label: u32) -> u32
    requires { (0 < amount) × (label ≤ 63) × (least ≤ max_price → price / amount ≤ max_price) }
    ensures { result ≡ liftOf least price amount label }
{
    if least <= MAX_PRICE {
        64 * (MAX_PRICE - price / amount) + label
    } else {
        0
    }
}

// Nothing where the bid is below its least, which no maximum sees.
fn held(bid: u32, least: u32, sum: u32) -> u32
    requires { (bid ≤ max_price) × (least ≤ max_price + 1) }
    ensures { result ≡ only (least ≤? bid) sum }
{
    if signed::below(bid, least) { 0 } else { sum }
}

// What the bids of a row are held to, station by station: the least bid, and the lift.
#[derive(Drop)]
pub struct RowKeys<'a> {
    pub leasts: &'a [u32],
    pub lifts: &'a [u32],
}

impl<'a> Model for RowKeys<'a> {
    ghost Value = { Holds };

    ghost view = { λ h. record { leasts = h.leasts.now; lifts = h.lifts.now } };

    ghost invariant = { λ h. HoldsRows (record { leasts = h.leasts.now; lifts = h.lifts.now }) };
}

// What is asked of a row is one clause, `Row`: the row is not the struct's own, and another each time.
impl RowKeys<'_> {
    // The greatest key of a row, or a greater number below 64, since no bid is held to its least. No sum goes below 0,
    // and nothing leaves the loop before its end.
    fn plain_top(&self, row: &[u32]) -> u32
        requires { Row self.now row.now }
        ensures top { result
            ≡ greatest (length row.now) (λ j. plain_key (get_or self.now.lifts j 0) (get_or row.now j 0)) }
        ensures holds { HoldsRows self.now }
    {
        let lifts = self.lifts;
        let mut top: u32 = HIGHEST;
        for (j, bid) in row.iter().enumerate() {
            top = signed::larger(top, 64 * *bid + lifts[j]);
        }
        top - HIGHEST
    }

    // With each bid held to its least. A loop of its own: one for both would take a closure, and a contract that says
    // what it gives at each station.
    fn exact_top(&self, row: &[u32]) -> u32
        requires { Row self.now row.now }
        ensures { result ≡ greatest (length row.now) (row_key self.now row.now) }
    {
        let leasts = self.leasts;
        let lifts = self.lifts;
        let mut top: u32 = HIGHEST;
        for (j, bid) in row.iter().enumerate() {
            let sum = 64 * *bid + lifts[j];
            top = signed::larger(top, held(*bid, leasts[j], sum));
        }
        top - HIGHEST
    }

    // The greatest key of a row. From 64 on a plain key is one of a bid above its price's quotient, which comes to the
    // bar: only below it, at a bid of the quotient itself, is the least asked.
    pub fn top_key(&self, row: &[u32]) -> u32
        requires { Row self.now row.now }
        ensures { result ≡ greatest (length row.now) (row_key self.now row.now) }
    {
        let top = self.plain_top(row);
        if (0 < top) & (top < 64) {
            self.exact_top(row)
        } else {
            top
        }
    }
}
