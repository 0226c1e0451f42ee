// Seats given and taken: a guest takes a free bay, or the place of the last holder. A station's holders stand in a
// chain, so that the last one is found among them alone. Each `as` is of a guest's index or a number, and fits: a
// `TryFrom` could fail.
ghost use Rattle.std.specs.Prelude.{◌≡◌, suc, ◌<◌, ◌≤◌, length};
ghost use Rattle.model.specs.Limits.{max_guests};
ghost use Rattle.quiet.specs.Efficient.{of, Moved};
ghost use Rattle.quiet.specs.Seating.{Linked, LaterOf, LastOf, Closed, Relinked, Sized};
ghost use Rattle.quiet.specs.Rounds.{BestTaker, HeldAt};
ghost use Rattle.quiet.specs.Seating.{number_of};
ghost use Rattle.quiet.specs.Rounds.{screened};

use crate::round::Round;
use crate::standing;
use std::marker::Model;

// The tables of a round on its way. Stations and guests stand in them by numbers from 1, 0 for none: bytes are fewer to
// read than options, and the seats are handed on to be charged as they are. They are lists and no rows of records: a
// loop over one reads nothing else. What holds of them in a round is asked beside them (`HeldAt`, `CalledAt`), since it
// depends on the round's market and cut.
#[derive(Drop)]
pub struct Seating<'a> {
    // Each guest's seat, by its station's number.
    pub chosen: &'a mut [u32],
    // How many hold a bay of each station; the number of the first one, and of the next one after each.
    pub held: &'a mut [u16],
    pub firsts: &'a mut [u8],
    pub nexts: &'a mut [u8],
    // A full station's last holder, and the number of the one before it in the chain.
    pub lasts: &'a mut [u8],
    pub befores: &'a mut [u8],
    // The least priority that each station takes.
    pub bars: &'a mut [u64],
}

impl<'a> Model for Seating<'a> {
    ghost use Rattle.quiet.specs.Seating.{Seating, seating};

    ghost Value = { Seating };

    ghost view = { λ s. seating s.chosen.now s.held.now s.firsts.now s.nexts.now s.lasts.now s.befores.now s.bars.now };
}

// A holder, and the number of the one before it in the chain, from 1; 0 for none.
#[derive(Clone, Copy)]
pub struct Holder {
    pub guest: usize,
    pub before: u8,
}

// Of a holder and guest i of station j, the one that stands later. The number before i is given.
fn later(round: &Round<'_>, j: usize, holder: Holder, i: usize, before: u8) -> Holder
    requires { let t = round.now.market.now in
        (j < length t.asks) × (holder.guest < length t.amounts) × (i < length t.amounts) }
    ensures { LaterOf (screened round.now) j holder.guest holder.before i before result.guest result.before }
{
    if standing::priority_at(round, i, j) < standing::priority_at(round, holder.guest, j) {
        Holder { guest: i, before }
    } else {
        holder
    }
}

impl<'a> Seating<'a> {
    // The last of the holders of station j, of whom there is one at least.
    fn last_holder(&self, round: &Round<'_>, j: usize) -> Holder
        requires sized { Sized round.now.market.now self.now × (j < length round.now.market.now.asks) }
        requires linked { Linked (length round.now.market.now.amounts) (of self.now.held j) (of self.now.firsts j)
            self.now.nexts × (0 < of self.now.held j) }
        ensures { LastOf (screened round.now) j (length round.now.market.now.amounts) (of self.now.held j)
            (of self.now.firsts j) self.now.nexts result.guest result.before }
    {
        let mut before = self.firsts[j];
        let mut i = usize::from(before - 1);
        let mut holder = Holder {
            guest: i,
            before: 0,
        };
        for _seen in 1..self.held[j] {
            let next = self.nexts[i];
            i = usize::from(next - 1);
            holder = later(round, j, holder, i, before);
            before = next;
        }
        holder
    }

    // Station j is full: its last holder, the one before that and its bar are entered.
    fn close(&mut self, round: &Round<'_>, j: usize)
        requires sized { Sized round.now.market.now self.old × (j < length round.now.market.now.asks) }
        requires linked { Linked (length round.now.market.now.amounts) (of self.old.held j) (of self.old.firsts j)
            self.old.nexts × (0 < of self.old.held j) }
        ensures { Closed (screened round.now) (length round.now.market.now.amounts) j self.old self.new }
    {
        let holder = self.last_holder(round, j);
        self.lasts[j] = holder.guest as u8;
        self.befores[j] = holder.before;
        self.bars[j] = standing::priority_at(round, holder.guest, j).0 + 1;
    }

    // Guest x takes a free bay of station j.
    fn fill(&mut self, round: &Round<'_>, x: usize, j: usize)
        requires best { BestTaker round.now self.old x j }
        requires free { of self.old.held j < of round.now.market.now.bays j }
        ensures { HeldAt round.now self.new
            × Moved (screened round.now) x (of self.old.chosen) 0 (of self.new.chosen) }
    {
        let market = round.market;
        let h = self.held[j] + 1;
        self.held[j] = h;
        self.chosen[x] = (j + 1) as u32;
        self.nexts[x] = self.firsts[j];
        self.firsts[j] = (x + 1) as u8;
        if h == market.bays[j] {
            self.close(round, j);
        }
    }

    // Guest x stands in the chain of station j in the place of its last holder.
    fn relink(&mut self, j: usize, x: usize)
        requires j_in_bounds { (j < length self.old.firsts) × (j < length self.old.lasts)
            × (j < length self.old.befores) }
        requires guests { (x < length self.old.nexts) × (of self.old.lasts j < length self.old.nexts)
            × (of self.old.befores j ≤ length self.old.nexts) × (length self.old.nexts ≤ max_guests) }
        ensures { Relinked j x self.old self.new }
    {
        let before = self.befores[j];
        let number = (x + 1) as u8;
        self.nexts[x] = self.nexts[usize::from(self.lasts[j])];
        if before == 0 {
            self.firsts[j] = number;
        } else {
            self.nexts[usize::from(before - 1)] = number;
        }
    }

    // Guest x takes the place of the last holder of station j, which is full. The answer is that holder.
    fn replace(&mut self, round: &Round<'_>, x: usize, j: usize) -> usize
        requires best { BestTaker round.now self.old x j }
        requires full { of round.now.market.now.bays j ≤ of self.old.held j }
        ensures { HeldAt round.now self.new
            × Moved (screened round.now) x (of self.old.chosen) (suc result) (of self.new.chosen) }
    {
        let y = usize::from(self.lasts[j]);
        self.chosen[y] = 0;
        self.chosen[x] = (j + 1) as u32;
        self.relink(j, x);
        self.close(round, j);
        y
    }

    // Guest x takes its seat at station j, the best of those that would take it. The answer is the guest put out.
    pub fn seat(&mut self, round: &Round<'_>, x: usize, j: usize) -> Option<usize>
        requires best { BestTaker round.now self.old x j }
        ensures { HeldAt round.now self.new
            × Moved (screened round.now) x (of self.old.chosen) (number_of result) (of self.new.chosen) }
    {
        let market = round.market;
        if self.held[j] < market.bays[j] {
            self.fill(round, x, j);
            return None;
        }
        Some(self.replace(round, x, j))
    }
}
