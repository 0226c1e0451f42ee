// The gains of rows by a price list: a table for all rows, and one maximum for each.
ghost use Rattle.std.specs.Prelude.{ℕ, ◌*◌, ◌<◌, ◌≤◌, ◌≡◌, pos, length, get_or, replicate};
ghost use Rattle.std.proofs.Math.IntN.{sub_ℕ};
ghost use Rattle.model.specs.Limits.{max_price};
ghost use Rattle.model.specs.Counting.{list};
ghost use Rattle.model.specs.market.Menus.{price_list, gains_from};
ghost use Rattle.menu.specs.Keys.{label, Prepared};
ghost use Rattle.menu.specs.Holds.{Rowed, row_gains};
ghost use Rattle.menu.specs.Offers.{Offers as OffersOf, Offered};

use crate::keys;
use crate::keys::RowKeys;
use model::limits::MAX_STATIONS;
use model::money::UnitPrice;
use std::marker::Model;

// The labels are below 64.
const LABELS: usize = 64;

// A guest's price list, amount and worths.
#[derive(Drop)]
pub struct Offers<'a> {
    pub bars: &'a [u32],
    pub prices: &'a [u32],
    pub amount: u16,
    pub worths: &'a [u32],
}

impl<'a> Model for Offers<'a> {
    ghost Value = { OffersOf };

    ghost view = { λ o.
        record { list = price_list o.bars.now o.prices.now; amount = o.amount; worths = o.worths.now } };

    ghost invariant = { λ o.
        Offered (record { list = price_list o.bars.now o.prices.now; amount = o.amount; worths = o.worths.now }) };
}

// The gain at a station by the worth there. Both terms are below 2 to the 48th, so that the difference fits, and the
// `as` too, where a `TryFrom` could fail. A line, as `whatif/gains` has of what a guest obtains: one function for both
// would be no shorter.
fn gain(worth: u32, amount: u16, price: u32) -> i64
    ensures { result ≡ sub_ℕ (worth * amount) price }
{
    UnitPrice(worth).times(u32::from(amount)).0 as i64 - i64::from(price)
}

// The gain of each row, by the gain that its greatest key's label leads to.
fn fill(rows: &[u32], row_keys: &RowKeys<'_>, table: &[i64], gains: &mut [i64])
    requires { Rowed rows.now row_keys.now table.now (length gains.old) }
    ensures { gains.new ≡ row_gains rows.now row_keys.now table.now (length gains.old) }
{
    let m = row_keys.leasts.len();
    // The rest is below 64, and std has no `From` from `u32` to `usize`.
    for (r, gain) in gains.iter_mut().enumerate() {
        let top = row_keys.top_key(&rows[r * m..r * m + m]);
        *gain = table[(top % 64) as usize];
    }
}

impl Offers<'_> {
    // For each station its least bid and lift; for each label the gain there, and 0 for none. The lifts stand where the
    // labels stood. A station is told of by its index, since six lists are read or written at it. A label is below 64,
    // and std has no `From` from `u32` to `usize`.
    fn prepare_labelled(&self, leasts: &mut [u32], lifts: &mut [u32], table: &mut [i64])
        requires { let m = length self.now.list.prices in (length leasts.old ≡ m)
            × (lifts.old ≡ list m (label self.now.list.prices self.now.amount)) × (table.old ≡ replicate 64 (pos 0)) }
        ensures { Prepared self.now.list self.now.amount self.now.worths leasts.new lifts.new table.new }
    {
        let bars = self.bars;
        let prices = self.prices;
        let worths = self.worths;
        let amount = self.amount;
        let kwh = u32::from(amount);
        for j in 0..prices.len() {
            let label = lifts[j];
            let least = keys::least_bid(bars[j], kwh);
            leasts[j] = least;
            lifts[j] = keys::lift(least, prices[j], kwh, label);
            table[label as usize] = gain(worths[j], amount, prices[j]);
        }
    }

    // The rests are needed for the labels alone, and stand where the least bids will.
    fn prepare(&self, leasts: &mut [u32], lifts: &mut [u32], table: &mut [i64])
        requires { let m = length self.now.list.prices in (length leasts.old ≡ m) × (length lifts.old ≡ m)
            × (table.old ≡ replicate 64 (pos 0)) }
        ensures { Prepared self.now.list self.now.amount self.now.worths leasts.new lifts.new table.new }
    {
        keys::fill_rests(self.prices, u32::from(self.amount), leasts);
        keys::fill_labels(leasts, lifts);
        self.prepare_labelled(leasts, lifts, table);
    }

    // As many rows as there are places for gains. The rooms are arrays of the most stations, cut to those there are:
    // there is no heap.
    pub fn gain_rows(&self, rows: &[u32], gains: &mut [i64])
        requires { (length rows.now ≡ length gains.old * length self.now.list.prices)
            × ((q : ℕ) → q < length rows.now → get_or rows.now q 0 ≤ max_price) }
        ensures { let o = self.now in
            gains.new ≡ gains_from o.list o.amount o.worths (length o.list.prices) rows.now (length gains.old) }
    {
        let m = self.prices.len();
        let mut leasts = [0u32; MAX_STATIONS];
        let mut lifts = [0u32; MAX_STATIONS];
        let mut table = [0i64; LABELS];
        let leasts = &mut leasts[..m];
        let lifts = &mut lifts[..m];
        self.prepare(leasts, lifts, &mut table);
        let row_keys = RowKeys { leasts, lifts };
        fill(rows, &row_keys, &table, gains);
    }
}
