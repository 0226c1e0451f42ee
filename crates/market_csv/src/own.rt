// The tables of the pass, which nobody sees before the whole text is known to be good.
ghost use Rattle.std.specs.Prelude.{◌≡◌, ◌≤◌};
ghost use Rattle.model.specs.Limits.{max_guests, max_stations};
ghost use Rattle.model.specs.clauses.Lent.{lent_tables_in, lent_tables_out};
ghost use Rattle.model.specs.sheet.Lent.{lent_tables};

use model::answers::Counts;
use model::limits::{MAX_BIDS, MAX_GUESTS, MAX_STATIONS};

// They are of the greatest size: no heap is used.
#[derive(Drop)]
pub struct OwnTables {
    pub amounts: [u16; MAX_GUESTS],
    pub tickets: [u32; MAX_GUESTS],
    pub asks: [u32; MAX_STATIONS],
    pub bays: [u16; MAX_STATIONS],
    pub bids: [u32; MAX_BIDS],
}

impl OwnTables {
    ghost use Rattle.market_csv.specs.Copies.{Fits, copied, lists_of};

    // What the market of these counts has in them, over the first places of lent tables. These are lent to be written,
    // so they stay five slices, as model/lent.rt says.
    pub fn copy_to(
        &self,
        counts: Counts,
        amounts: &mut [u16],
        tickets: &mut [u32],
        asks: &mut [u32],
        bays: &mut [u16],
        bids: &mut [u32],
    )
        requires { (counts.guests ≤ max_guests) × (counts.stations ≤ max_stations)
            × Fits counts.guests counts.stations
            (lent_tables amounts.old tickets.old asks.old bays.old bids.old) }
        ensures fit { Fits counts.guests counts.stations (lists_of self.now) }
        ensures lent { lent_tables_out amounts tickets asks bays bids
            ≡ copied counts.guests counts.stations self.now (lent_tables_in amounts tickets asks bays bids) }
    {
        let Counts { guests, stations } = counts;
        copies::put_first(&self.amounts, guests, 0, amounts);
        copies::put_first(&self.tickets, guests, 0, tickets);
        copies::put_first(&self.asks, stations, 0, asks);
        copies::put_first(&self.bays, stations, 0, bays);
        copies::put_first(&self.bids, guests * stations, 0, bids);
    }
}
