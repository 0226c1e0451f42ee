// The clearing with its places and floors, and the mark of one that is handed in, for other languages:
// include/bay_market.h.
ghost use Rattle.model.specs.Numbers.{answer_of_marking};
ghost use Rattle.model.specs.Promises.{KeepsOut};
ghost use Rattle.model.specs.clauses.EntryPoints.{clearing_fully, marking};
ghost use Rattle.model.specs.clauses.Lent.{tables_in, full_results_in, full_results_out, submission_in};
ghost use Rattle.bay_market.specs.Tells.{Tells};

use crate::clear;
use model::lent::{Market, Submission};
use model::refusal::Refusal;

// The answer's number, 0 for a mark, which goes to its place.
#[tactic(auto, unfolding(model::specs::Numbers::answer_of_marking, model::specs::Verdicts::number_of))]
fn tell_mark(answer: Result<bool, Refusal>, correct: &mut u8) -> u8
    ensures { Tells (answer_of_marking answer) correct.old result correct.new }
{
    match answer {
        Err(refusal) => u8::from(refusal),
        Ok(yes) => {
            *correct = u8::from(yes);
            0
        }
    }
}

#[unsafe(no_mangle)]
pub extern "C" fn bay_market_clear_marked(
    rule: u8,
    asks: &[u32],
    bays: &[u16],
    amounts: &[u16],
    tickets: &[u32],
    bids: &[u32],
    width: usize,
    stations: &mut [u16],
    charges: &mut [u32],
    sold: &mut [u32],
    paid: &mut [u64],
    places: &mut [u8],
    floors: &mut [u32],
    cut: &mut u32,
    margin: &mut u64,
) -> u8
    ensures { KeepsOut (clearing_fully rule (tables_in asks bays amounts tickets bids width))
        (full_results_in stations charges sold paid places floors) (cut.old, margin.old) result
        (full_results_out stations charges sold paid places floors) (cut.new, margin.new) }
{
    let market = Market {
        asks,
        bays,
        amounts,
        tickets,
        bids,
        width,
    };
    let answer = marking::clear_marked(
        rule, &market, stations, charges, sold, paid, places, floors,
    );
    clear::tell(answer, cut, margin)
}

#[unsafe(no_mangle)]
pub extern "C" fn bay_market_mark(
    rule: u8,
    asks: &[u32],
    bays: &[u16],
    amounts: &[u16],
    tickets: &[u32],
    bids: &[u32],
    width: usize,
    stations: &[u16],
    charges: &[u32],
    sold: &[u32],
    paid: &[u64],
    places: &[u8],
    floors: &[u32],
    cut: u32,
    margin: u64,
    correct: &mut u8,
) -> u8
    ensures { KeepsOut (marking rule (tables_in asks bays amounts tickets bids width)
        (submission_in stations charges sold paid places floors cut margin)) tt correct.old result tt
        correct.new }
{
    let market = Market {
        asks,
        bays,
        amounts,
        tickets,
        bids,
        width,
    };
    let submission = Submission {
        stations,
        charges,
        sold,
        paid,
        places,
        floors,
        cut,
        margin,
    };
    tell_mark(marking::mark(rule, &market, &submission), correct)
}
