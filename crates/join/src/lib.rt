// Two gates' markets joined into one, the first gate's guests in front. The joined lists are lent one by one, as they
// come over the C interface.
#![tactic(auto)]

mod faults;

ghost use Rattle.std.specs.Prelude.{◌≡◌};
ghost use Rattle.model.specs.clauses.Lent.{lent_tables_in, lent_tables_out};
ghost use Rattle.model.specs.clauses.EntryPoints.{Joins};
ghost use Rattle.model.specs.sheet.Lent.{lent_tables};
ghost use Rattle.join.specs.Together.{Fits, in_one};

use faults::Lengths;
use model::lent::{AcceptedMarket, Market};
use model::refusal::Refusal;

// The asks and bays of the first gate, and the guests of both, over tables that fit them.
fn put_together(
    first: &AcceptedMarket<'_>,
    second: &AcceptedMarket<'_>,
    joined_asks: &mut [u32],
    joined_bays: &mut [u16],
    joined_amounts: &mut [u16],
    joined_tickets: &mut [u32],
    joined_bids: &mut [u32],
)
    requires { Fits first.now second.now (lent_tables joined_amounts.old joined_tickets.old joined_asks.old
        joined_bays.old joined_bids.old) }
    ensures { lent_tables_out joined_amounts joined_tickets joined_asks joined_bays joined_bids
        ≡ in_one first.now second.now }
{
    copies::put(first.asks, 0, joined_asks);
    copies::put(first.bays, 0, joined_bays);
    copies::join_lists(first.amounts, second.amounts, joined_amounts);
    copies::join_lists(first.tickets, second.tickets, joined_tickets);
    copies::join_lists(first.bids, second.bids, joined_bids);
}

// Joins two markets into lent tables that fit the joined one exactly, or refuses and writes nothing.
pub fn join(
    first: &Market<'_>,
    second: &Market<'_>,
    joined_asks: &mut [u32],
    joined_bays: &mut [u16],
    joined_amounts: &mut [u16],
    joined_tickets: &mut [u32],
    joined_bids: &mut [u32],
) -> Result<(), Refusal>
    ensures { Joins first.now second.now
        (lent_tables_in joined_amounts joined_tickets joined_asks joined_bays joined_bids) result
        (lent_tables_out joined_amounts joined_tickets joined_asks joined_bays joined_bids) }
{
    let first = checks::faults::accept(first)?;
    let second = checks::faults::accept(second)?;
    let lengths = Lengths {
        amounts: joined_amounts.len(),
        tickets: joined_tickets.len(),
        asks: joined_asks.len(),
        bays: joined_bays.len(),
        bids: joined_bids.len(),
    };
    faults::pair_fault(&first, &second, lengths)?;
    put_together(
        &first,
        &second,
        joined_asks,
        joined_bays,
        joined_amounts,
        joined_tickets,
        joined_bids,
    );
    Ok(())
}
