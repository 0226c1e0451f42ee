// The page that is asked for of a market, as bytes in a lent buffer: its clearing, what decided or its sheet; or its
// refusal, before anything is written. The tables are arrays of the most guests, stations or bids, cut to those there
// are: there is no heap. Those that are lent to be written stay slices (model/lent).
ghost use Rattle.std.specs.Prelude.{◌≡◌, length};
ghost use Rattle.model.specs.market.Outcome.{outcome_in};
ghost use Rattle.model.specs.market.Reasons.{guest_outcomes};
ghost use Rattle.model.specs.text.MarketText.{market_text_of, reasons_page_of, page_of};
ghost use Rattle.report.specs.Tried.{Few, Tried};

use crate::{page, reasons};
use explain::explained;
use model::lent::Market;
use model::limits::{MAX_BIDS, MAX_GUESTS, MAX_STATIONS};
use model::mechanism::Mechanism;
use model::page::Page;
use model::refusal::Refusal;
use model::rule::Rule;

// The text of a market, by way of lent result lists.
fn print_cleared(
    mechanism: Mechanism,
    rule: Rule,
    market: &Market<'_>,
    stations: &mut [u16],
    charges: &mut [u32],
    sold: &mut [u32],
    paid: &mut [u64],
    out: &mut [u8],
) -> Result<usize, Refusal>
    requires counts { Few market.now }
    requires lengths { (length stations.old ≡ length market.now.amounts)
        × (length charges.old ≡ length market.now.amounts) × (length sold.old ≡ length market.now.asks)
        × (length paid.old ≡ length market.now.asks) }
    ensures { Tried (market_text_of (outcome_in mechanism rule) market.now) out.old result out.new }
{
    let figures = clearing::clear_under(mechanism, rule, market, stations, charges, sold, paid)?;
    Ok(page::clearing_text(figures, stations, charges, sold, paid, out))
}

// The same by way of tables of its own.
fn print_clearing(
    mechanism: Mechanism,
    rule: Rule,
    market: &Market<'_>,
    out: &mut [u8],
) -> Result<usize, Refusal>
    requires { Few market.now }
    ensures { Tried (market_text_of (outcome_in mechanism rule) market.now) out.old result out.new }
{
    let guests = market.amounts.len();
    let places = market.asks.len();
    let mut stations = [0u16; MAX_GUESTS];
    let mut charges = [0u32; MAX_GUESTS];
    let mut sold = [0u32; MAX_STATIONS];
    let mut paid = [0u64; MAX_STATIONS];
    print_cleared(
        mechanism,
        rule,
        market,
        &mut stations[..guests],
        &mut charges[..guests],
        &mut sold[..places],
        &mut paid[..places],
        out,
    )
}

// What decided for each guest.
fn print_reasons(rule: Rule, market: &Market<'_>, out: &mut [u8]) -> Result<usize, Refusal>
    requires { Few market.now }
    ensures { Tried (reasons_page_of (guest_outcomes rule) market.now) out.old result out.new }
{
    let guests = market.amounts.len();
    let places = guests * market.asks.len();
    let mut codes = [0u8; MAX_BIDS];
    let told = explained::explained_under(rule, market, guests, &mut codes[..places])?;
    Ok(reasons::reasons_text(&told, out))
}

// The market was read, so that its counts are within the limits. The page is chosen when the program runs, and named by
// the definition `page_of`: a `match` on its enum is the plain form.
pub fn print_market(asked: Page, market: &Market<'_>, out: &mut [u8]) -> Result<usize, Refusal>
    requires { Few market.now }
    ensures { Tried (page_of asked (length out.old) market.now) out.old result out.new }
{
    match asked {
        Page::Clearing(rule) => print_clearing(Mechanism::Truthful, rule, market, out),
        Page::Efficient(rule) => print_clearing(Mechanism::Efficient, rule, market, out),
        Page::Reasons(rule) => print_reasons(rule, market, out),
        Page::Sheet => sheet::write(market, out),
    }
}
