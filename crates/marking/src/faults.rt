// The first fault of a call that gives a clearing with its places and floors, or marks one.
ghost use Rattle.std.specs.Prelude.{◌≡◌, IfOk};
ghost use Rattle.model.specs.Numbers.{answer_of_check};
ghost use Rattle.model.specs.Verdicts.{first_fault};
ghost use Rattle.model.specs.market.Outcome.{results};
ghost use Rattle.model.specs.market.Marking.{full_results, full_table_faults};

use checks::faults;
use model::lent::{AcceptedMarket, Market};
use model::refusal::Refusal;

// With the lists that are lent or handed in. They are no `Submission`: where they are lent, there is no cut yet. Their
// test stands between sizes and values, as in `checks`: one function for all such calls would take it as a closure.
pub fn accept_for_marking<'a>(
    market: &Market<'a>,
    stations: &[u16],
    charges: &[u32],
    sold: &[u32],
    paid: &[u64],
    places: &[u8],
    floors: &[u32],
) -> Result<AcceptedMarket<'a>, Refusal>
    ensures fault { answer_of_check result ≡ first_fault (full_table_faults market.now
        (full_results (results stations.now charges.now sold.now paid.now) places.now floors.now)) }
    ensures same { IfOk result (λ t. t ≡ market.now) }
{
    faults::market_size_fault(market)?;
    let n = market.amounts.len();
    let m = market.asks.len();
    let differ = (stations.len() != n)
        | (charges.len() != n)
        | (sold.len() != m)
        | (paid.len() != m)
        | (places.len() != n * m)
        | (floors.len() != m);
    if differ {
        return Err(Refusal::LentLengths);
    }
    faults::value_fault(market)?;
    Ok(faults::accepted(market))
}
