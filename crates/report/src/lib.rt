// What the clearing program prints, as bytes in a lent buffer. The tables are arrays of the most that is read, cut to
// what was: there is no heap.
#![tactic(auto)]

mod lines;
mod page;
mod printing;
mod reading;
mod reasons;
mod text;

ghost use Rattle.std.specs.Prelude.{length};
ghost use Rattle.model.specs.clauses.Prints.{Prints};
ghost use Rattle.model.specs.text.Printed.{printed};
ghost use Rattle.report.specs.Tried.{Tried};

use model::answers::Counts;
use model::lent::Market;
use model::limits::{MAX_BIDS, MAX_GUESTS, MAX_STATIONS};
use model::page::{Layout, Page};
use model::refusal::Refusal;

// The page of what is read, or the refusal before anything is written.
fn try_page(layout: Layout, asked: Page, bytes: &[u8], out: &mut [u8]) -> Result<usize, Refusal>
    ensures { Tried (printed layout asked (length out.old) bytes.now) out.old result out.new }
{
    let mut amounts = [0u16; MAX_GUESTS];
    let mut tickets = [0u32; MAX_GUESTS];
    let mut asks = [0u32; MAX_STATIONS];
    let mut bays = [0u16; MAX_STATIONS];
    let mut bids = [0u32; MAX_BIDS];
    let Counts { guests, stations } = reading::read_as(
        layout,
        bytes,
        &mut amounts,
        &mut tickets,
        &mut asks,
        &mut bays,
        &mut bids,
    )?;
    let market = Market {
        asks: &asks[..stations],
        bays: &bays[..stations],
        amounts: &amounts[..guests],
        tickets: &tickets[..guests],
        bids: &bids[..guests * stations],
        width: stations,
    };
    printing::print_market(asked, &market, out)
}

// The page that the clearing program prints of a market in a layout, as far as the buffer reaches. Gives the page's
// length.
pub fn print_page(layout: Layout, asked: Page, bytes: &[u8], out: &mut [u8]) -> usize
    ensures { Prints (printed layout asked (length out.old) bytes.now)
        out.old result out.new }
{
    match try_page(layout, asked, bytes, out) {
        Ok(length) => length,
        Err(refusal) => page::refusal_text(refusal, out),
    }
}
