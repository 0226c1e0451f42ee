// The best of a guest's candidacies at stations that would take it. Each `as` is of a number that fits, and that std
// has no `From` for.
ghost use Rattle.std.specs.Prelude.{◌≡◌, ◌+◌, ◌-◌, ◌*◌, ◌%◌, ◌^◌, ◌<◌, ◌≤◌, max, length};
ghost use Rattle.model.specs.Counting.{◌≤?◌, only};
ghost use Rattle.allocation.specs.Ties.{last_ticket};
ghost use Rattle.allocation.specs.Totals.{max_total};
ghost use Rattle.quiet.specs.Efficient.{of, best_taker};
ghost use Rattle.quiet.specs.Seating.{Bars, TopChoice, station_in, number_of};
ghost use Rattle.quiet.specs.Rounds.{screened, HeldAt};

use crate::round::Round;
use crate::seats::Seating;
use crate::standing::{Priority, TOTAL};
use model::money::UnitPrice;

// Half of what 64 bits hold: priorities and bars are at most that.
const HALF: u64 = 9_223_372_036_854_775_808;

// A station that a guest may choose: a total and, below it, how low the station is. The greater is the better one.
#[derive(Clone, Copy, PartialEq, Eq, PartialOrd, Ord)]
struct Choice(u64);

// A choice where a priority is not below a bar, else 0. No branch: what passes cannot be foreseen.
fn passed(priority: Priority, bar: Priority, x: Choice) -> Choice
    requires { (priority.0 < 2 ^ 63) × (bar.0 ≤ 2 ^ 63) }
    ensures { result.0 ≡ only (bar.0 ≤? priority.0) x.0 }
{
    let choice = (priority.0 + HALF - bar.0) / HALF * x.0;
    Choice(choice)
}

// The best choice so far against a bid at station j. Scale and low are the guest's, bid and bar the station's: they go
// together nowhere else.
fn better(bid: UnitPrice, j: usize, scale: u64, low: u64, bar: Priority, top: Choice) -> Choice
    requires { (bid.0 * scale ≤ max_total * 2 ^ 32) × (low ≤ last_ticket) × (bar.0 ≤ 2 ^ 63) × (j ≤ 64) }
    ensures { result.0 ≡ max top.0 (only (bar.0 ≤? bid.0 * scale + low) (bid.0 * scale + (64 - j))) }
{
    let total = u64::from(bid.0) * scale;
    let priority = total + low;
    let choice = total + (64 - (j as u64));
    top.max(passed(Priority(priority), bar, Choice(choice)))
}

// Guest x's best choice among the open stations whose bar it passes; the cut's total where there is none.
fn best_choice(round: &Round<'_>, bars: &[u64], x: usize) -> Choice
    requires bars { Bars (length round.now.market.now.asks) bars.now }
    requires x_in_bounds { x < length round.now.market.now.amounts }
    ensures { TopChoice (screened round.now) (of bars.now) x result.0 }
{
    let market = round.market;
    let row = views::row_through_view(market.bids, market.asks.len(), x + 1);
    let scale = u64::from(market.amounts[x]) * TOTAL;
    let low = u64::from(u32::MAX - market.tickets[x]);
    let none = u64::from(round.cut.0) * scale;
    let mut top = Choice(none);
    for &j in round.opened {
        top = better(UnitPrice(row[j]), j, scale, low, Priority(bars[j]), top);
    }
    top
}

// A choice's station.
fn station_of(top: Choice) -> Option<usize>
    requires { top.0 % 256 ≤ 64 }
    ensures { number_of result ≡ station_in top.0 }
{
    let low = (top.0 % 256) as usize;
    if low == 0 { None } else { Some(64 - low) }
}

// The best of guest x's candidacies at stations that would take it: those whose bar it passes.
pub fn best_taker(round: &Round<'_>, seating: &Seating<'_>, x: usize) -> Option<usize>
    requires held_in { HeldAt round.now seating.now }
    requires x_in_bounds { x < length round.now.market.now.amounts }
    ensures { best_taker (screened round.now) (of seating.now.held) (of seating.now.lasts) x ≡ number_of result }
{
    station_of(best_choice(round, seating.bars, x))
}
