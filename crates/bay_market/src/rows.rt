// Another row tried, for other languages: include/bay_market.h.
ghost use Rattle.model.specs.Numbers.{answer_of_trying};
ghost use Rattle.model.specs.Promises.{KeepsOut};
ghost use Rattle.model.specs.clauses.EntryPoints.{trying};
ghost use Rattle.model.specs.clauses.Lent.{tables_in};
ghost use Rattle.bay_market.specs.Tells.{Tells};

use model::answers::Gains;
use model::lent::Market;
use model::refusal::Refusal;

// The answer's number, 0 for a row that was tried, whose gains go to their places.
#[tactic(auto, unfolding(model::specs::Numbers::answer_of_trying, model::specs::Verdicts::number_of))]
fn tell_gains(answer: Result<Gains, Refusal>, first_gain: &mut i64, second_gain: &mut i64) -> u8
    ensures { Tells (answer_of_trying answer) (first_gain.old, second_gain.old) result
        (first_gain.new, second_gain.new) }
{
    match answer {
        Err(refusal) => u8::from(refusal),
        Ok(gains) => {
            *first_gain = gains.first;
            *second_gain = gains.second;
            0
        }
    }
}

#[unsafe(no_mangle)]
pub extern "C" fn bay_market_try(
    rule: u8,
    asks: &[u32],
    bays: &[u16],
    amounts: &[u16],
    tickets: &[u32],
    bids: &[u32],
    width: usize,
    guest: u32,
    worths: &[u32],
    row: &[u32],
    changes: &mut [u8],
    first_gain: &mut i64,
    second_gain: &mut i64,
) -> u8
    ensures { KeepsOut (trying rule (tables_in asks bays amounts tickets bids width) guest
        worths.now row.now) changes.old
        (first_gain.old, second_gain.old) result changes.new
        (first_gain.new, second_gain.new) }
{
    let market = Market {
        asks,
        bays,
        amounts,
        tickets,
        bids,
        width,
    };
    let answer = whatif::try_row(rule, &market, guest, worths, row, changes);
    tell_gains(answer, first_gain, second_gain)
}
