// What decided, for other languages: include/bay_market.h.
ghost use Rattle.std.specs.Prelude.{not, [], ◌∷◌, ◌≡◌, ◌≤◌, length};
ghost use Rattle.model.specs.Limits.{max_guests};
ghost use Rattle.model.specs.Counting.{◌=?◌, any};
ghost use Rattle.model.specs.clauses.EntryPoints.{explaining};
ghost use Rattle.model.specs.Promises.{RepliesOut};
ghost use Rattle.model.specs.clauses.Lent.{tables_in, outcomes_in, outcomes_out, explanation_in, explanation_out};
ghost use Rattle.bay_market.specs.LaidOut.{LaidOut};

use explain::explained::OutcomeArrays;
use explain::{explained, outcomes};
use model::lent::Market;
use model::money::Mills;

// The length of an outcome table that is given as three lists: n where each of them is n long, else another number.
fn table_length(n: usize, stations: usize, charges: usize, reasons: usize) -> usize
    ensures { any (result ∷ []) (λ k. not (k =? n)) ≡ any (stations ∷ charges ∷ reasons ∷ []) (λ k. not (k =? n)) }
{
    if (stations == n) & (charges == n) & (reasons == n) {
        return n;
    }
    if n == 0 { 1 } else { 0 }
}

// Each guest's record, laid out as a station, a charge and a code. By index: six lists are read or written at it, and
// after a `zip` of `iter_mut` nothing is known of what a list holds.
fn lay_out(told: &OutcomeArrays, stations: &mut [u16], charges: &mut [u32], reasons: &mut [u8])
    requires { (told.now.guests ≤ max_guests) × (told.now.guests ≤ length stations.old)
        × (told.now.guests ≤ length charges.old) × (told.now.guests ≤ length reasons.old) }
    ensures { LaidOut told.now (outcomes_in stations charges reasons) (outcomes_out stations charges reasons) }
{
    for i in 0..told.guests {
        let charge = Mills::from(told.charges[i]);
        let outcome = outcomes::guest_outcome(told.stations[i], charge, told.reasons[i]);
        stations[i] = outcomes::station_in(outcome);
        charges[i] = outcomes::charge_in(outcome).narrow();
        reasons[i] = outcomes::loss_in(outcome);
    }
}

#[unsafe(no_mangle)]
pub extern "C" fn bay_market_explain(
    rule: u8,
    asks: &[u32],
    bays: &[u16],
    amounts: &[u16],
    tickets: &[u32],
    bids: &[u32],
    width: usize,
    codes: &mut [u8],
    stations: &mut [u16],
    charges: &mut [u32],
    reasons: &mut [u8],
) -> u8
    ensures { RepliesOut (explaining rule (tables_in asks bays amounts tickets bids width))
        (explanation_in codes stations charges reasons) result (explanation_out codes stations charges reasons) }
{
    let market = Market {
        asks,
        bays,
        amounts,
        tickets,
        bids,
        width,
    };
    let places = table_length(amounts.len(), stations.len(), charges.len(), reasons.len());
    match explained::explained(rule, &market, places, codes) {
        Err(refusal) => u8::from(refusal),
        Ok(told) => {
            lay_out(&told, stations, charges, reasons);
            0
        }
    }
}
