// Bids from parking places for other languages: include/bay_market.h.
ghost use Rattle.model.specs.clauses.Lent.{places_in};
ghost use Rattle.model.specs.clauses.EntryPoints.{placing};
ghost use Rattle.model.specs.Promises.{RepliesOut};

use crate::post;
use model::lent::Places;

#[unsafe(no_mangle)]
pub extern "C" fn bay_market_place_bids(
    prices: &[u32],
    falls: &[u32],
    guest_first: &[u16],
    guest_second: &[u16],
    station_first: &[u16],
    station_second: &[u16],
    bids: &mut [u32],
) -> u8
    ensures { RepliesOut
        (placing (places_in prices falls guest_first guest_second station_first station_second))
        bids.old result bids.new }
{
    let places = Places {
        prices,
        falls,
        guest_first,
        guest_second,
        station_first,
        station_second,
    };
    post::reply_number(grid::place_bids(&places, bids))
}
