// Offers of a station's places to guests.
ghost use Rattle.std.specs.Prelude.{◌+◌, ◌-◌, ◌≤◌, true, ◌≡◌};
ghost use Rattle.model.specs.Counting.{◌<?◌, only};
ghost use Rattle.allocation.specs.Totals.{max_total};
ghost use Rattle.allocation.specs.Offers.{picked, won_by, gain_for, Offerable, Offered};

use crate::signed;
use model::money::Mills;

// What a station's places are won by: its critical total, and the bound of its ties.
#[derive(Clone, Copy)]
pub struct Bar {
    pub critical: Mills,
    pub bound: u32,
}

impl Bar {
    // The total that a guest must be above: the critical total, or one less for whoever wins its tie.
    fn to_exceed(self, ticket: u32) -> Mills
        requires { self.critical.0 ≡ 0 → self.bound ≡ 0 }
        ensures { result.0 ≡ self.critical.0 - only (ticket <? self.bound) 1 }
    {
        if ticket < self.bound {
            self.critical - Mills(1)
        } else {
            self.critical
        }
    }

    // Whether a guest of this total and ticket wins a place: above the critical total, or at it and below the bound.
    fn is_won(self, total: Mills, ticket: u32) -> bool
        requires bound_value { self.critical.0 ≡ 0 → self.bound ≡ 0 }
        requires total_le_max_total { (total.0 ≤ max_total) × (self.critical.0 ≤ max_total) }
        ensures { result ≡ won_by total.0 self.critical.0 ticket self.bound }
    {
        signed::below(self.to_exceed(ticket), total)
    }
}

// One more than total less charge where a place is won, so that 0 is no place: the form of the definition `gain_for`.
fn gain_for(won: bool, total: Mills, charge: Mills) -> Mills
    requires { (total.0 ≤ max_total) × (won ≡ true → charge.0 ≤ total.0) }
    ensures { result.0 ≡ gain_for won total.0 charge.0 }
{
    if won {
        total - charge + Mills(1)
    } else {
        Mills(0)
    }
}

fn pick(old: Mills, new: Mills, a: u32, b: u32) -> u32
    requires { (old.0 ≤ max_total + 1) × (new.0 ≤ max_total + 1) }
    ensures { result ≡ picked (old.0 <? new.0) a b }
{
    if signed::below(old, new) { a } else { b }
}

// Guests' choices so far: the number of the station of each one's best offer, 0 for none, and one more than its gain.
// Numbers and not options, as `charge_guests` and the definition `After` read them; two lists beside one another, so
// that four guests are compared at once.
#[derive(Drop)]
pub struct Choices<'a> {
    pub chosen: &'a mut [u32],
    pub gains: &'a mut [u32],
}

// One station's offers to every guest: where an offer gains more than the best so far, it is chosen. What it requires
// of its lists holds in an accepted market. Each list is one that another function made: they are together only here.
// All five are gone through by one index, where a zip would nest them four deep.
fn offer_below(
    totals: &[u32],
    tickets: &[u32],
    least: &[u32],
    bar: Bar,
    station: u32,
    choices: &mut Choices<'_>,
)
    requires { Offerable totals.now tickets.now least.now bar.critical.0 bar.bound choices.old.chosen.now
        choices.old.gains.now }
    ensures { Offered totals.now tickets.now least.now bar.critical.0 bar.bound
        station choices.old.chosen.now choices.old.gains.now choices.new.chosen.now choices.new.gains.now }
{
    let chosen = &mut *choices.chosen;
    let gains = &mut *choices.gains;
    for (i, total) in totals.iter().enumerate() {
        let total = Mills::from(*total);
        let charge = signed::larger(Mills::from(least[i]), bar.critical);
        let gain = gain_for(bar.is_won(total, tickets[i]), total, charge);
        let old = Mills::from(gains[i]);
        chosen[i] = pick(old, gain, station, chosen[i]);
        gains[i] = signed::larger(old, gain).narrow();
    }
}

// The same. With a bound of 0, which is the common case, no ticket is looked at: the loop is made a second time, with
// that bound known.
pub fn offer(
    totals: &[u32],
    tickets: &[u32],
    least: &[u32],
    bar: Bar,
    station: u32,
    choices: &mut Choices<'_>,
)
    requires { Offerable totals.now tickets.now least.now bar.critical.0 bar.bound choices.old.chosen.now
        choices.old.gains.now }
    ensures { Offered totals.now tickets.now least.now bar.critical.0 bar.bound
        station choices.old.chosen.now choices.old.gains.now choices.new.chosen.now choices.new.gains.now }
{
    if bar.bound == 0 {
        offer_below(
            totals,
            tickets,
            least,
            Bar { bound: 0, ..bar },
            station,
            choices,
        );
    } else {
        offer_below(totals, tickets, least, bar, station, choices);
    }
}
