// What another row of a guest would have done: both gains, and who becomes seated or unseated. The lists are lent one
// by one, as they come over the C interface; so does a guest's number, and std has no `From` from `u32` to `usize`.
#![tactic(auto)]

mod changes;
mod faults;
mod gains;
mod rounds;
mod rows;
mod tried;

ghost use Rattle.model.specs.clauses.EntryPoints.{Tries};
ghost use Rattle.whatif.specs.Tried.{TriesUnder};

use model::answers::Gains;
use model::lent::Market;
use model::refusal::Refusal;
use model::rule::Rule;

// Tries a row under a known rule, or refuses and writes nothing.
fn try_under(
    rule: Rule,
    market: &Market<'_>,
    guest: usize,
    worths: &[u32],
    row: &[u32],
    changes: &mut [u8],
) -> Result<Gains, Refusal>
    ensures { TriesUnder rule market.now guest worths.now row.now changes.old result changes.new }
{
    let accepted = faults::accept_row(market, guest, worths, row, changes.len())?;
    Ok(tried::try_accepted(rule, &accepted, guest - 1, worths, row, changes))
}

// Tries another row of a guest, named from 1 on, under the rule of a number, which is looked at first: it may name
// none.
pub fn try_row(
    rule: u8,
    market: &Market<'_>,
    guest: u32,
    worths: &[u32],
    row: &[u32],
    changes: &mut [u8],
) -> Result<Gains, Refusal>
    ensures { Tries rule market.now guest worths.now row.now changes.old result changes.new }
{
    let known = Rule::try_from(rule)?;
    try_under(known, market, guest as usize, worths, row, changes)
}
