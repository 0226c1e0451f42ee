// A row tried in an accepted market: both rounds, both gains and the changes.
ghost use Rattle.std.specs.Prelude.{length};
ghost use Rattle.whatif.specs.Tried.{Triable, TriesAccepted};

use crate::{changes, gains, rounds, rows};
use model::answers::Gains;
use model::lent::AcceptedMarket;
use model::limits::{MAX_BIDS, MAX_GUESTS};
use model::rule::Rule;

// Guests count from 0 here. The lists are those of the call, one by one. The tables are arrays of the most guests or
// bids, cut to those there are: there is no heap.
pub fn try_accepted(
    rule: Rule,
    market: &AcceptedMarket<'_>,
    guest: usize,
    worths: &[u32],
    row: &[u32],
    changes: &mut [u8],
) -> Gains
    requires { Triable market.now guest worths.now row.now (length changes.old) }
    ensures { TriesAccepted rule market.now guest worths.now row.now result changes.new }
{
    let mut table = [0u32; MAX_BIDS];
    let bids = &mut table[..market.bids.len()];
    rows::lay_row(market.bids, row, guest, bids);
    let other = AcceptedMarket {
        asks: market.asks,
        bays: market.bays,
        amounts: market.amounts,
        tickets: market.tickets,
        bids,
    };
    let amounts = market.amounts;
    let n = amounts.len();
    let mut stations = [0u16; MAX_GUESTS];
    let mut charges = [0u32; MAX_GUESTS];
    let mut other_stations = [0u16; MAX_GUESTS];
    let mut other_charges = [0u32; MAX_GUESTS];
    let stations = &mut stations[..n];
    let charges = &mut charges[..n];
    let other_stations = &mut other_stations[..n];
    let other_charges = &mut other_charges[..n];
    rounds::both_rounds(
        rule,
        market,
        &other,
        stations,
        charges,
        other_stations,
        other_charges,
    );
    changes::tell_changes(stations, other_stations, guest, changes);
    let amount = amounts[guest];
    let first = gains::gain(worths, stations[guest], amount, charges[guest]);
    let second = gains::gain(worths, other_stations[guest], amount, other_charges[guest]);
    Gains { first, second }
}
