// The clearing for other languages: include/bay_market.h.
ghost use Rattle.model.specs.Promises.{KeepsOut};
ghost use Rattle.model.specs.market.Outcome.{outcome, efficient_outcome};
ghost use Rattle.model.specs.clauses.EntryPoints.{clearing};
ghost use Rattle.model.specs.clauses.Lent.{tables_in, results_in, results_out};
ghost use Rattle.model.specs.Numbers.{answer_of_clearing};
ghost use Rattle.bay_market.specs.Tells.{Tells};

use model::answers::Figures;
use model::lent::Market;
use model::mechanism::Mechanism;
use model::refusal::Refusal;

// The answer's number, 0 for a clearing, whose cut and margin go to their places.
#[tactic(auto, unfolding(model::specs::Numbers::answer_of_clearing, model::specs::Verdicts::number_of))]
pub fn tell(answer: Result<Figures, Refusal>, cut: &mut u32, margin: &mut u64) -> u8
    ensures { Tells (answer_of_clearing answer) (cut.old, margin.old) result
        (cut.new, margin.new) }
{
    match answer {
        Err(refusal) => u8::from(refusal),
        Ok(figures) => {
            *cut = figures.cut.0;
            *margin = figures.margin.0;
            0
        }
    }
}

#[unsafe(no_mangle)]
pub extern "C" fn bay_market_clear(
    rule: u8,
    asks: &[u32],
    bays: &[u16],
    amounts: &[u16],
    tickets: &[u32],
    bids: &[u32],
    width: usize,
    stations: &mut [u16],
    charges: &mut [u32],
    sold: &mut [u32],
    paid: &mut [u64],
    cut: &mut u32,
    margin: &mut u64,
) -> u8
    ensures { KeepsOut (clearing outcome rule (tables_in asks bays amounts tickets bids width))
        (results_in stations charges sold paid) (cut.old, margin.old) result
        (results_out stations charges sold paid) (cut.new, margin.new) }
{
    let market = Market {
        asks,
        bays,
        amounts,
        tickets,
        bids,
        width,
    };
    let answer = clearing::clear(
        Mechanism::Truthful,
        rule,
        &market,
        stations,
        charges,
        sold,
        paid,
    );
    tell(answer, cut, margin)
}

#[unsafe(no_mangle)]
pub extern "C" fn bay_market_clear_efficient(
    rule: u8,
    asks: &[u32],
    bays: &[u16],
    amounts: &[u16],
    tickets: &[u32],
    bids: &[u32],
    width: usize,
    stations: &mut [u16],
    charges: &mut [u32],
    sold: &mut [u32],
    paid: &mut [u64],
    cut: &mut u32,
    margin: &mut u64,
) -> u8
    ensures { KeepsOut (clearing efficient_outcome rule (tables_in asks bays amounts tickets bids width))
        (results_in stations charges sold paid) (cut.old, margin.old) result
        (results_out stations charges sold paid) (cut.new, margin.new) }
{
    let market = Market {
        asks,
        bays,
        amounts,
        tickets,
        bids,
        width,
    };
    let answer = clearing::clear(
        Mechanism::Efficient,
        rule,
        &market,
        stations,
        charges,
        sold,
        paid,
    );
    tell(answer, cut, margin)
}
