// A guest's price list and the gains of rows by it, for other languages: include/bay_market.h.
ghost use Rattle.model.specs.Promises.{RepliesOut};
ghost use Rattle.model.specs.clauses.EntryPoints.{listing, gaining};
ghost use Rattle.model.specs.clauses.Lent.{tables_in, price_list_in, price_list_out};

use crate::post;
use model::lent::Market;

#[unsafe(no_mangle)]
pub extern "C" fn bay_market_menu(
    rule: u8,
    asks: &[u32],
    bays: &[u16],
    amounts: &[u16],
    tickets: &[u32],
    bids: &[u32],
    width: usize,
    guest: u32,
    bars: &mut [u32],
    prices: &mut [u32],
) -> u8
    ensures { RepliesOut (listing rule (tables_in asks bays amounts tickets bids width) guest)
        (price_list_in bars prices) result (price_list_out bars prices) }
{
    let market = Market {
        asks,
        bays,
        amounts,
        tickets,
        bids,
        width,
    };
    post::reply_number(menu::price_list(rule, &market, guest, bars, prices))
}

#[unsafe(no_mangle)]
pub extern "C" fn bay_market_gains(
    rule: u8,
    asks: &[u32],
    bays: &[u16],
    amounts: &[u16],
    tickets: &[u32],
    bids: &[u32],
    width: usize,
    guest: u32,
    worths: &[u32],
    rows: &[u32],
    gains: &mut [i64],
) -> u8
    ensures { RepliesOut (gaining rule (tables_in asks bays amounts tickets bids width) guest
        worths.now rows.now) gains.old result gains.new }
{
    let market = Market {
        asks,
        bays,
        amounts,
        tickets,
        bids,
        width,
    };
    post::reply_number(menu::gains(rule, &market, guest, worths, rows, gains))
}
