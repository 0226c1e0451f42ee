// The reader for other languages: include/bay_market.h.
ghost use Rattle.std.specs.Prelude.{◌≤◌, IfOk};
ghost use Rattle.model.specs.Limits.{max_guests, max_stations};
ghost use Rattle.model.specs.Numbers.{answer_of_reading};
ghost use Rattle.model.specs.clauses.Lent.{lent_tables_in, lent_tables_out};
ghost use Rattle.model.specs.clauses.EntryPoints.{reading};
ghost use Rattle.model.specs.Promises.{KeepsOut};
ghost use Rattle.bay_market.specs.Tells.{Tells};

use model::answers::Counts;
use model::refusal::Refusal;

// The answer's number, 0 for a market that was read, whose counts go to their places. They are within the limits, and
// fit 16 bits: a `TryFrom` could fail, which this cannot.
#[tactic(auto, unfolding(model::specs::Numbers::answer_of_reading, model::specs::Verdicts::number_of))]
pub fn tell_counts(answer: Result<Counts, Refusal>, n: &mut u16, m: &mut u16) -> u8
    requires { IfOk answer (λ c. (c.guests ≤ max_guests) × (c.stations ≤ max_stations)) }
    ensures { Tells (answer_of_reading answer) (n.old, m.old) result (n.new, m.new) }
{
    match answer {
        Err(refusal) => u8::from(refusal),
        Ok(counts) => {
            *n = counts.guests as u16;
            *m = counts.stations as u16;
            0
        }
    }
}

#[unsafe(no_mangle)]
pub extern "C" fn bay_market_read(
    sheet: &[u8],
    amounts: &mut [u16],
    tickets: &mut [u32],
    asks: &mut [u32],
    bays: &mut [u16],
    bids: &mut [u32],
    n: &mut u16,
    m: &mut u16,
) -> u8
    ensures { KeepsOut (reading sheet.now)
        (lent_tables_in amounts tickets asks bays bids) (n.old, m.old) result
        (lent_tables_out amounts tickets asks bays bids) (n.new, m.new) }
{
    tell_counts(sheet::read(sheet, amounts, tickets, asks, bays, bids), n, m)
}
