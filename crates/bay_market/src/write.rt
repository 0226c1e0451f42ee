// The writer for other languages: include/bay_market.h.
ghost use Rattle.model.specs.clauses.Lent.{tables_in};
ghost use Rattle.model.specs.clauses.EntryPoints.{writing};
ghost use Rattle.model.specs.Promises.{KeepsOut};
ghost use Rattle.model.specs.Numbers.{answer_of_writing};
ghost use Rattle.bay_market.specs.Tells.{Tells};

use model::lent::Market;
use model::refusal::Refusal;

// The answer's number, 0 for a sheet that was written, whose length goes to its place.
#[tactic(auto, unfolding(model::specs::Numbers::answer_of_writing, model::specs::Verdicts::number_of))]
fn tell_length(answer: Result<usize, Refusal>, length: &mut usize) -> u8
    ensures { Tells (answer_of_writing answer) length.old result length.new }
{
    match answer {
        Err(refusal) => u8::from(refusal),
        Ok(written) => {
            *length = written;
            0
        }
    }
}

#[unsafe(no_mangle)]
pub extern "C" fn bay_market_write(
    asks: &[u32],
    bays: &[u16],
    amounts: &[u16],
    tickets: &[u32],
    bids: &[u32],
    width: usize,
    sheet: &mut [u8],
    length: &mut usize,
) -> u8
    ensures { KeepsOut (writing (tables_in asks bays amounts tickets bids width))
        sheet.old length.old result sheet.new length.new }
{
    let market = Market {
        asks,
        bays,
        amounts,
        tickets,
        bids,
        width,
    };
    tell_length(sheet::write(&market, sheet), length)
}
