// The first fault of a call that places bids, in the order of document 02.
ghost use Rattle.std.specs.Prelude.{◌*◌, ◌≤◌, not, ◌≡◌, length};
ghost use Rattle.model.specs.Limits.{max_guests, max_stations, max_cell};
ghost use Rattle.model.specs.Counting.{◌=?◌, ◌or◌, any};
ghost use Rattle.model.specs.Numbers.{answer_of_verdict};
ghost use Rattle.model.specs.Verdicts.{first_fault};
ghost use Rattle.model.specs.market.Faults.{outside};
ghost use Rattle.model.specs.places.Faults.{placing_faults};

use checks::scans;
use model::lent::Places;
use model::limits;
use model::limits::MAX_CELL;
use model::refusal::Refusal;

fn lengths_differ(places: &Places<'_>, bids: usize) -> bool
    requires { (length places.now.guest_first ≤ max_guests)
        × (length places.now.station_first ≤ max_stations) }
    ensures { let p = places.now in let n = length p.guest_first in let m = length p.station_first in
        result ≡ (not (length p.prices =? n) or not (length p.falls =? n) or not (length p.guest_second =? n)
        or not (length p.station_second =? m) or not (bids =? n * m)) }
{
    let n = places.guest_first.len();
    let m = places.station_first.len();
    (places.prices.len() != n)
        | (places.falls.len() != n)
        | (places.guest_second.len() != n)
        | (places.station_second.len() != m)
        | (bids != n * m)
}

fn cells_off_grid(places: &Places<'_>) -> bool
    ensures { let p = places.now in
        result ≡ (any p.guest_first (outside 0 max_cell) or any p.guest_second (outside 0 max_cell)
        or any p.station_first (outside 0 max_cell) or any p.station_second (outside 0 max_cell)) }
{
    scans::any_outside(places.guest_first, 0, MAX_CELL)
        | scans::any_outside(places.guest_second, 0, MAX_CELL)
        | scans::any_outside(places.station_first, 0, MAX_CELL)
        | scans::any_outside(places.station_second, 0, MAX_CELL)
}

// Of a call with a bid table of so many places. The counts come first, so that n times m cannot wrap.
pub fn placing_fault(places: &Places<'_>, bids: usize) -> Result<(), Refusal>
    ensures { answer_of_verdict result ≡ first_fault (placing_faults places.now bids) }
{
    if limits::counts_out_of_range(places.guest_first.len(), places.station_first.len()) {
        return Err(Refusal::CountsOutOfRange);
    }
    if lengths_differ(places, bids) {
        return Err(Refusal::LengthsDiffer);
    }
    if cells_off_grid(places) {
        return Err(Refusal::CellOffGrid);
    }
    if scans::prices_out_of_range(places.prices, places.falls) {
        return Err(Refusal::PriceOrFallOutOfRange);
    }
    Ok(())
}
