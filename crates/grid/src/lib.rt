// Bids from parking places.
#![tactic(auto)]

ghost use Rattle.model.specs.clauses.EntryPoints.{PlacesBids};

use model::lent::Places;
use model::refusal::Refusal;

mod faults;
mod rows;
mod walk_table;

// Writes each guest's bid at each station, from its price, its fall and the walk between their cells, or refuses and
// writes nothing.
pub fn place_bids(places: &Places<'_>, bids: &mut [u32]) -> Result<(), Refusal>
    ensures { PlacesBids places.now bids.old result bids.new }
{
    faults::placing_fault(places, bids.len())?;
    rows::place_rows(places, bids);
    Ok(())
}
