// The joining of two gates' markets for other languages: include/bay_market.h.
ghost use Rattle.model.specs.clauses.Lent.{tables_in, lent_tables_in, lent_tables_out};
ghost use Rattle.model.specs.clauses.EntryPoints.{joining};
ghost use Rattle.model.specs.Promises.{RepliesOut};

use crate::post;
use model::lent::Market;

#[unsafe(no_mangle)]
pub extern "C" fn bay_market_join(
    asks: &[u32],
    bays: &[u16],
    amounts: &[u16],
    tickets: &[u32],
    bids: &[u32],
    width: usize,
    asks2: &[u32],
    bays2: &[u16],
    amounts2: &[u16],
    tickets2: &[u32],
    bids2: &[u32],
    width2: usize,
    joined_asks: &mut [u32],
    joined_bays: &mut [u16],
    joined_amounts: &mut [u16],
    joined_tickets: &mut [u32],
    joined_bids: &mut [u32],
) -> u8
    ensures { RepliesOut (joining (tables_in asks bays amounts tickets bids width)
        (tables_in asks2 bays2 amounts2 tickets2 bids2 width2))
        (lent_tables_in joined_amounts joined_tickets joined_asks joined_bays joined_bids) result
        (lent_tables_out joined_amounts joined_tickets joined_asks joined_bays joined_bids) }
{
    let first = Market {
        asks,
        bays,
        amounts,
        tickets,
        bids,
        width,
    };
    let second = Market {
        asks: asks2,
        bays: bays2,
        amounts: amounts2,
        tickets: tickets2,
        bids: bids2,
        width: width2,
    };
    let reply = join::join(
        &first,
        &second,
        joined_asks,
        joined_bays,
        joined_amounts,
        joined_tickets,
        joined_bids,
    );
    post::reply_number(reply)
}
