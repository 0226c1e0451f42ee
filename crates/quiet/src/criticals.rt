// The critical totals of a quiet round: at each station the greatest total that was turned away. They are raised guest
// by guest, row by row; the rows' loop has no branch. Each `as` is of a number that fits, and that std has no `From`
// for.
ghost use Rattle.std.specs.Prelude.{◌≡◌, suc, ◌+◌, ◌^◌, ◌<◌, ◌≤◌, max, length};
ghost use Rattle.model.specs.Limits.{max_stations, max_price, max_amount};
ghost use Rattle.model.specs.Counting.{◌<?◌, only, list};
ghost use Rattle.model.specs.clauses.Rows.{row_of};
ghost use Rattle.allocation.specs.Totals.{max_total};
ghost use Rattle.quiet.specs.Efficient.{of, Seats, critical_of};
ghost use Rattle.quiet.specs.Criticals.{least_rank, total_from, raised_by, passed_over};
ghost use Rattle.quiet.specs.Criticals.{Renewed, Row, Room};
ghost use Rattle.allocation.specs.Stages.{NoCriticals};
ghost use Rattle.quiet.specs.Rounds.{screened, HeldAt};

use crate::round::Round;
use crate::seats::Seating;
use allocation::signed;
use model::money::{Mills, UnitPrice};

// A bid's rank in its row: 64 times the bid and more the lower its station. Of two bids the one of greater rank stands
// before the other. One number and no pair: the least is taken from it with no branch.
#[derive(Clone, Copy)]
struct Rank(u32);

const BID: u32 = 64;

// Half of what 32 bits hold: ranks and totals are below it.
const HALF: u32 = 2_147_483_648;

// The critical total so far, or a bid's total where its rank is not below the least that was turned away.
fn raised(bid: UnitPrice, j: u32, amount: u32, least: Rank, top: Mills) -> Mills
    requires bid_le_max_price { (bid.0 ≤ max_price) × (j < max_stations) × (amount ≤ max_amount) }
    requires least_bound { (least.0 < 2 ^ 31) × (top.0 ≤ max_total) }
    ensures { result.0 ≡ max top.0 (total_from least.0 bid.0 j amount) }
{
    let rank = bid.0 * BID + (63 - j);
    let total = bid.times(amount);
    let counted = u64::from((rank + HALF - least.0) / HALF) * total.0;
    signed::larger(top, Mills(counted))
}

// Raises the critical totals of all stations by a row of bids.
fn raise_row(row: &[u32], amount: u32, least: Rank, criticals: &mut [u32])
    requires row { Row row.now }
    requires amount_le_max_amount { (amount ≤ max_amount) × (least.0 < 2 ^ 31) }
    requires room { Room (length row.now) criticals.old }
    ensures { Renewed (length row.now) (raised_by row.now amount least.0 criticals.old)
        criticals.old criticals.new }
{
    for (j, &bid) in row.iter().enumerate() {
        let top = Mills::from(criticals[j + 1]);
        criticals[j + 1] = raised(UnitPrice(bid), j as u32, amount, least, top).narrow();
    }
}

// The least rank at which a bid of this row was turned away: above that of its guest's seat, by its number, or that of
// the cut where it has none. Seats are numbers in the round's tables (`Seating`), 0 for none.
fn least_rank(row: &[u32], cut: UnitPrice, seat: u32) -> Rank
    requires { Row row.now × (cut.0 ≤ max_price) × (seat ≤ length row.now) }
    ensures { (result.0 ≡ least_rank row.now cut.0 seat) × (result.0 < 2 ^ 31) }
{
    if seat == 0 {
        let rank = cut.0 * BID;
        return Rank(rank);
    }
    let rank = row[(seat - 1) as usize] * BID + (65 - seat);
    Rank(rank)
}

// Raises them by guest i's row.
fn raise(round: &Round<'_>, chosen: &[u32], i: usize, criticals: &mut [u32])
    requires seats { Seats round.now.market.now round.now.cut.0 chosen.now }
    requires i_in_bounds { i < length round.now.market.now.amounts }
    requires room { Room (length round.now.market.now.asks) criticals.old }
    ensures { let t = round.now.market.now in
        let row = row_of t.bids (length t.asks) (i + 1) in
        Renewed (length t.asks) (raised_by row (of t.amounts i)
        (least_rank row round.now.cut.0 (of chosen.now i)) criticals.old)
        criticals.old criticals.new }
{
    let market = round.market;
    let row = views::row_through_view(market.bids, market.asks.len(), i + 1);
    let least = least_rank(row, round.cut, chosen[i]);
    raise_row(row, u32::from(market.amounts[i]), least, criticals);
}

// Raises them from nothing by every guest's row, as if all stations were open.
fn raise_all(round: &Round<'_>, chosen: &[u32], criticals: &mut [u32])
    requires seats { Seats round.now.market.now round.now.cut.0 chosen.now }
    requires criticals_value { NoCriticals criticals.old }
    ensures { let t = round.now.market.now in
        Renewed (length t.asks) (passed_over t.amounts t.bids chosen.now (length t.asks)
        round.now.cut.0 (length t.amounts)) criticals.old criticals.new }
{
    // A guest's index finds its row.
    for i in 0..chosen.len() {
        raise(round, chosen, i, criticals);
    }
}

// A critical total, or 0 where the station is closed: the form of the definition `critical_of`.
fn if_open(ask: UnitPrice, cut: UnitPrice, critical: Mills) -> Mills
    ensures { (result.0 ≡ only (ask.0 <? cut.0) critical.0) × (result.0 ≤ critical.0) }
{
    if ask < cut { critical } else { Mills(0) }
}

// Closed stations turn nobody away.
fn clear_closed(asks: &[u32], cut: UnitPrice, criticals: &mut [u32])
    requires { length asks.now < length criticals.old }
    ensures { Renewed (length asks.now) (λ j. only (of asks.now j <? cut.0) (of criticals.old (suc j)))
        criticals.old criticals.new }
{
    for (j, &ask) in asks.iter().enumerate() {
        let critical = Mills::from(criticals[j + 1]);
        criticals[j + 1] = if_open(UnitPrice(ask), cut, critical).narrow();
    }
}

// The critical total of each station, at its number.
pub fn all_criticals(round: &Round<'_>, seating: &Seating<'_>, criticals: &mut [u32])
    requires held_in { HeldAt round.now seating.now }
    requires criticals_value { NoCriticals criticals.old }
    ensures { let m = length round.now.market.now.asks in
        criticals.new ≡ list (max_stations + 1) (critical_of (screened round.now) (of seating.now.chosen) m) }
{
    raise_all(round, seating.chosen, criticals);
    let market = round.market;
    clear_closed(market.asks, round.cut, criticals);
}
