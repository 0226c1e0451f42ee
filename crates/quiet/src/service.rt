// Guests are served one at a time; whoever is put out is served next.
ghost use Rattle.std.specs.Prelude.{◌-◌, ◌*◌, ◌<◌, ◌≤◌, ◌≡◌, length};
ghost use Rattle.model.specs.market.Stable.{Stable};
ghost use Rattle.quiet.specs.Efficient.{of, Moved, Served, CalledToo};
ghost use Rattle.quiet.specs.Seating.{GuestLine, Waits, number_of};
ghost use Rattle.quiet.specs.Rounds.{screened, HeldAt, CalledAt};

use crate::round::Round;
use crate::seats::Seating;
use crate::{line, takers};
use model::limits::MAX_GUESTS;

// Guest x is served. The answer is the guest put out for it.
fn serve_guest(round: &Round<'_>, x: usize, seating: &mut Seating<'_>) -> Option<usize>
    requires held_in { HeldAt round.now seating.old }
    requires waits { Waits round.now.market.now seating.old.chosen x }
    ensures { HeldAt round.now seating.new
        × Moved (screened round.now) x (of seating.old.chosen) (number_of result) (of seating.new.chosen) }
{
    let j = takers::best_taker(round, seating, x)?;
    seating.seat(round, x, j)
}

// Guest x is served, and whoever is put out on the way: the loop goes from guest to guest, and counts nothing.
fn serve(round: &Round<'_>, x: usize, seating: &mut Seating<'_>)
    requires held_in { HeldAt round.now seating.old }
    requires waits { Waits round.now.market.now seating.old.chosen x }
    ensures { HeldAt round.now seating.new
        × Served (screened round.now) x (of seating.old.chosen) 0 (of seating.new.chosen) }
{
    let mut guest = x;
    while let Some(out) = serve_guest(round, guest, seating) {
        guest = out;
    }
}

// Guest x is served, where it was not called up yet. Who was called up is a byte and not a `bool`: the definitions
// `Called` and `CalledToo` read numbers.
fn call_up(round: &Round<'_>, x: usize, called: &mut [u8], seating: &mut Seating<'_>)
    requires called { CalledAt round.now called.old seating.old }
    requires x_in_bounds { x < length round.now.market.now.amounts }
    ensures { CalledAt round.now called.new seating.new
        × CalledToo (length round.now.market.now.amounts) x called.old called.new }
{
    if called[x] == 0 {
        called[x] = 1;
        serve(round, x, seating);
    }
}

// Who is called up at turn r: the guests of the line, then everyone.
fn turn(line: &[u8], r: usize) -> usize
    requires { GuestLine (length line.now) line.now × (r < 2 * length line.now) }
    ensures { let n = length line.now in (result < n) × (n ≤ r → result ≡ r - n) }
{
    if r < line.len() {
        usize::from(line[r])
    } else {
        r - line.len()
    }
}

// Everyone is called up, first those of the line: by one loop, since with two of them the compiler makes a function of
// the call, and the clearing takes a tenth longer.
fn serve_line(round: &Round<'_>, line: &[u8], called: &mut [u8], seating: &mut Seating<'_>)
    requires called { CalledAt round.now called.old seating.old }
    requires guest_line { GuestLine (length round.now.market.now.amounts) line.now }
    ensures { HeldAt round.now seating.new
        × Stable (screened round.now) (of seating.new.chosen) }
{
    for r in 0..2 * line.len() {
        call_up(round, turn(line, r), called, seating);
    }
}

// Everyone is served: how they stand in the line is a matter of speed alone.
pub fn serve_all(round: &Round<'_>, called: &mut [u8], seating: &mut Seating<'_>)
    requires called { CalledAt round.now called.old seating.old }
    ensures { HeldAt round.now seating.new
        × Stable (screened round.now) (of seating.new.chosen) }
{
    let market = round.market;
    // An array of the most guests, cut to those there are: there is no heap.
    let mut line = [0u8; MAX_GUESTS];
    let line = &mut line[..market.amounts.len()];
    line::line_up(market, line);
    serve_line(round, line, called, seating);
}
