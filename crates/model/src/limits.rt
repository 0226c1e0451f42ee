// The limits of the bay market.
ghost use Rattle.std.specs.Prelude.{◌≡◌};
ghost use Rattle.model.specs.Counting.{◌<?◌, ◌=?◌, ◌or◌};
ghost use Rattle.model.specs.Limits.{limits as limitsOf, max_guests, max_stations};

pub const MAX_GUESTS: usize = 200;

pub const MAX_STATIONS: usize = 40;

pub const MAX_PRICE: u32 = 1_000_000;

pub const MAX_AMOUNT: u16 = 1_000;

pub const MAX_BAYS: u16 = 200;

pub const MAX_ACCOUNT: u64 = 1_000_000_000_000_000;

pub const MAX_ROUND: u32 = 4_294_967_295;

// The desks that share a book; they are numbered from 0.
pub const MAX_DESKS: usize = 8;

pub const MAX_BIDS: usize = MAX_GUESTS * MAX_STATIONS;

// The bytes of the largest sheet, and a bound on those of a printed page.
pub const MAX_SHEET: usize = 34_444;

pub const MAX_PAGE: usize = MAX_SHEET;

// A coordinate of a cell, and the squared distance of two cells.
pub const MAX_CELL: u16 = 31;

pub const MAX_SQUARED_DISTANCE: usize = 1_922;

#[derive(Clone, Copy)]
pub struct Limits {
    pub guests: usize,
    pub stations: usize,
    pub price: u32,
    pub amount: u16,
    pub bays: u16,
    pub account: u64,
    pub round: u32,
    pub desks: usize,
    pub bids: usize,
    pub sheet: usize,
    pub page: usize,
    pub cell: u16,
    pub square: usize,
}

// The constants, proved to be the limits that specs/ has.
pub fn stated_limits() -> Limits
    ensures { result ≡ limitsOf }
{
    Limits {
        guests: MAX_GUESTS,
        stations: MAX_STATIONS,
        price: MAX_PRICE,
        amount: MAX_AMOUNT,
        bays: MAX_BAYS,
        account: MAX_ACCOUNT,
        round: MAX_ROUND,
        desks: MAX_DESKS,
        bids: MAX_BIDS,
        sheet: MAX_SHEET,
        page: MAX_PAGE,
        cell: MAX_CELL,
        square: MAX_SQUARED_DISTANCE,
    }
}

// Whether a market of so many guests and stations is none.
pub fn counts_out_of_range(guests: usize, stations: usize) -> bool
    ensures { result ≡ (max_guests <? guests or stations =? 0 or max_stations <? stations) }
{
    (MAX_GUESTS < guests) | (stations == 0) | (MAX_STATIONS < stations)
}
