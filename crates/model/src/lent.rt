// What callers lend to be read, each part a struct of the lists that belong together: parallel lists, as the C
// interface has them. Lists that are lent to be written stay slices: a struct of `&mut` would not tell its owner what
// they hold afterwards.
ghost use Rattle.model.specs.market.Market.{Tables, tables, regular};
ghost use Rattle.model.specs.market.Outcome.{results};
ghost use Rattle.model.specs.market.Marking.{full_results};
ghost use Rattle.model.specs.market.Marking.{Submission as Submitted, submission};
ghost use Rattle.model.specs.places.Bids.{Places as Placed, places};
ghost use Rattle.model.specs.claims.Meaning.{WithinLimits};

use std::marker::Model;

// A market of any lengths and values, with the row width of its bids.
#[derive(Drop)]
pub struct Market<'a> {
    pub asks: &'a [u32],
    pub bays: &'a [u16],
    pub amounts: &'a [u16],
    pub tickets: &'a [u32],
    pub bids: &'a [u32],
    pub width: usize,
}

impl<'a> Model for Market<'a> {
    ghost Value = { Tables };

    ghost view = { λ m. tables m.asks.now m.bays.now m.amounts.now m.tickets.now m.bids.now m.width };
}

// A market that no check refuses: its rows are as wide as there are stations.
#[derive(Drop)]
pub struct AcceptedMarket<'a> {
    pub asks: &'a [u32],
    pub bays: &'a [u16],
    pub amounts: &'a [u16],
    pub tickets: &'a [u32],
    pub bids: &'a [u32],
}

impl<'a> Model for AcceptedMarket<'a> {
    ghost Value = { Tables };

    ghost view = { λ m. regular m.asks.now m.bays.now m.amounts.now m.tickets.now m.bids.now };

    ghost invariant = { λ m. WithinLimits (regular m.asks.now m.bays.now m.amounts.now m.tickets.now m.bids.now) };
}

// A clearing with its places and floors, as it is handed in.
#[derive(Drop)]
pub struct Submission<'a> {
    pub stations: &'a [u16],
    pub charges: &'a [u32],
    pub sold: &'a [u32],
    pub paid: &'a [u64],
    pub places: &'a [u8],
    pub floors: &'a [u32],
    pub cut: u32,
    pub margin: u64,
}

impl<'a> Model for Submission<'a> {
    ghost Value = { Submitted };

    ghost view = { λ s. submission
        (full_results (results s.stations.now s.charges.now s.sold.now s.paid.now) s.places.now s.floors.now)
        s.cut s.margin };
}

// Prices, falls and cells.
#[derive(Drop)]
pub struct Places<'a> {
    pub prices: &'a [u32],
    pub falls: &'a [u32],
    pub guest_first: &'a [u16],
    pub guest_second: &'a [u16],
    pub station_first: &'a [u16],
    pub station_second: &'a [u16],
}

impl<'a> Model for Places<'a> {
    ghost Value = { Placed };

    ghost view = { λ p. places p.prices.now p.falls.now p.guest_first.now p.guest_second.now
        p.station_first.now p.station_second.now };
}
