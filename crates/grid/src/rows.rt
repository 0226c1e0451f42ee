// The bids of accepted places, a row for each guest. Lists are written by their index: after a `zip` of `iter_mut`
// nothing is known of what a list holds.
ghost use Rattle.std.specs.Prelude.{◌*◌, ◌-◌, ◌^◌, ◌<◌, ◌≡◌, length};
ghost use Rattle.model.specs.places.Bids.{squared_distance, placed_bids};
ghost use Rattle.model.specs.claims.Places.{OnGrid, PlacesWithinLimits};
ghost use Rattle.grid.specs.Rows.{row_bids, row_squares, RowReady, SquaresReady};

use crate::walk_table;
use model::cell::Cell;
use model::lent::Places;
use model::limits::{MAX_SQUARED_DISTANCE, MAX_STATIONS};
use model::money::UnitPrice;

// How fast a unit price falls: mills per kWh for each tenth of a cell.
#[derive(Clone, Copy)]
struct Fall(u32);

#[derive(Clone, Copy)]
struct Guest {
    price: UnitPrice,
    fall: Fall,
    cell: Cell,
}

// What all rows are written from: the walk of each squared distance, and the stations' cells.
#[derive(Clone, Copy)]
struct Grid<'a> {
    walks: &'a [u16; MAX_SQUARED_DISTANCE + 1],
    firsts: &'a [u16],
    seconds: &'a [u16],
}

fn squared_distance(a: Cell, b: Cell) -> usize
    requires { OnGrid a × OnGrid b }
    ensures { result ≡ squared_distance a b }
{
    let first = usize::from(a.first.abs_diff(b.first));
    let second = usize::from(a.second.abs_diff(b.second));
    first * first + second * second
}

// The price less the fall times the walk, 0 where that is negative.
fn bid(guest: Guest, walk: u16) -> u32
    requires { guest.fall.0 * walk < 2 ^ 32 }
    ensures { result ≡ guest.price.0 - guest.fall.0 * walk }
{
    guest.price.0.saturating_sub(guest.fall.0 * u32::from(walk))
}

// The squared distances of a cell from all stations. No one waits for another: several of them a step. The cast narrows
// a distance on the grid, which fits 16 bits.
fn square_row(from: Cell, grid: &Grid<'_>, squares: &mut [u16])
    requires { SquaresReady from grid.now.firsts.now grid.now.seconds.now squares.old }
    ensures { squares.new ≡ row_squares from grid.now.firsts.now grid.now.seconds.now }
{
    let firsts = grid.firsts;
    let seconds = grid.seconds;
    for j in 0..squares.len() {
        let station = Cell {
            first: firsts[j],
            second: seconds[j],
        };
        squares[j] = squared_distance(from, station) as u16;
    }
}

// A guest's bids at all stations, by their squared distances.
fn bid_row(grid: &Grid<'_>, guest: Guest, squares: &[u16], row: &mut [u32])
    requires { RowReady grid.now guest row.old
        × (squares.now ≡ row_squares guest.cell grid.now.firsts.now grid.now.seconds.now) }
    ensures { row.new ≡ row_bids guest grid.now.firsts.now grid.now.seconds.now }
{
    let walks = grid.walks;
    for j in 0..row.len() {
        row[j] = bid(guest, walks[usize::from(squares[j])]);
    }
}

// A guest's bids, with a room of the greatest size for the squared distances: no heap is used.
fn place_row(grid: &Grid<'_>, guest: Guest, row: &mut [u32])
    requires { RowReady grid.now guest row.old }
    ensures { row.new ≡ row_bids guest grid.now.firsts.now grid.now.seconds.now }
{
    let mut room = [0; MAX_STATIONS];
    let squares = &mut room[..row.len()];
    square_row(guest.cell, grid, squares);
    bid_row(grid, guest, squares, row);
}

// All rows.
pub fn place_rows(places: &Places<'_>, bids: &mut [u32])
    requires { PlacesWithinLimits places.now (length bids.old) }
    ensures { bids.new ≡ placed_bids places.now }
{
    let walks = walk_table::walks();
    let grid = Grid {
        walks: &walks,
        firsts: places.station_first,
        seconds: places.station_second,
    };
    let stations = grid.firsts.len();
    let prices = places.prices;
    let falls = places.falls;
    let firsts = places.guest_first;
    let seconds = places.guest_second;
    for i in 0..firsts.len() {
        let guest = Guest {
            price: UnitPrice(prices[i]),
            fall: Fall(falls[i]),
            cell: Cell {
                first: firsts[i],
                second: seconds[i],
            },
        };
        place_row(&grid, guest, &mut bids[i * stations..(i + 1) * stations]);
    }
}
