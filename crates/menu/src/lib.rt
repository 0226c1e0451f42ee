// A guest's price list, and the gains of rows by it. The lists are lent one by one, as they come over the C interface;
// so does a guest's number, and std has no `From` from `u32` to `usize`.
#![tactic(auto)]

mod accepted;
mod faults;
mod keys;
mod listing;
mod rows;

ghost use Rattle.model.specs.clauses.EntryPoints.{Lists, Gains};
ghost use Rattle.model.specs.clauses.Lent.{price_list_in, price_list_out};
ghost use Rattle.menu.specs.Accepted.{ListsUnder, GainsUnder};

use model::lent::Market;
use model::refusal::Refusal;
use model::rule::Rule;

// Lists under a known rule, or refuses and writes nothing.
fn list_under(
    rule: Rule,
    market: &Market<'_>,
    guest: usize,
    bars: &mut [u32],
    prices: &mut [u32],
) -> Result<(), Refusal>
    ensures { ListsUnder rule market.now guest (price_list_in bars prices) result (price_list_out bars prices) }
{
    let accepted = faults::accept_listing(market, guest, bars.len(), prices.len())?;
    accepted::list_accepted(rule, &accepted, guest - 1, bars, prices);
    Ok(())
}

// The price list of a guest, named from 1 on, under the rule of a number, which is looked at first: for each station
// the least total with which the guest holds a place there, and its charge there. A number may name no rule.
pub fn price_list(
    rule: u8,
    market: &Market<'_>,
    guest: u32,
    bars: &mut [u32],
    prices: &mut [u32],
) -> Result<(), Refusal>
    ensures { Lists rule market.now guest (price_list_in bars prices) result (price_list_out bars prices) }
{
    let known = Rule::try_from(rule)?;
    list_under(known, market, guest as usize, bars, prices)
}

// Gains under a known rule, or a refusal that writes nothing.
fn gain_under(
    rule: Rule,
    market: &Market<'_>,
    guest: usize,
    worths: &[u32],
    rows: &[u32],
    gains: &mut [i64],
) -> Result<(), Refusal>
    ensures { GainsUnder rule market.now guest worths.now rows.now gains.old result gains.new }
{
    let accepted = faults::accept_gaining(market, guest, worths, rows, gains.len())?;
    accepted::gain_accepted(rule, &accepted, guest - 1, worths, rows, gains);
    Ok(())
}

// The gain of each row by the guest's worths, under the rule of a number, which is looked at first: it may name none.
pub fn gains(
    rule: u8,
    market: &Market<'_>,
    guest: u32,
    worths: &[u32],
    rows: &[u32],
    gains: &mut [i64],
) -> Result<(), Refusal>
    ensures { Gains rule market.now guest worths.now rows.now gains.old result gains.new }
{
    let known = Rule::try_from(rule)?;
    gain_under(known, market, guest as usize, worths, rows, gains)
}
