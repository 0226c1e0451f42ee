// A round settled on a book, or refused. The book's lists stay slices, since they are lent to be written (model/lent).
ghost use Rattle.std.specs.Prelude.{◌≡◌};
ghost use Rattle.model.specs.Verdicts.{◌gives◌, first_fault};
ghost use Rattle.model.specs.Promises.{Keeps};
ghost use Rattle.model.specs.book.Book.{book, plain};
ghost use Rattle.model.specs.book.PlainBook.{book_size, no_desk, out_of_turn};
ghost use Rattle.model.specs.Numbers.{answer_of_verdict};
ghost use Rattle.model.specs.clauses.Lent.{book_in, book_out};
ghost use Rattle.ledger.specs.Settling.{settling};

use crate::round::Round;
use crate::{accounts, room, stations};
use model::account::StationAccount;
use model::limits::{MAX_DESKS, MAX_GUESTS, MAX_ROUND, MAX_STATIONS};
use model::refusal::Refusal;

// Whether a book of so many accounts and last rounds is too small or too large for n guests and m stations.
fn book_size_differs(n: usize, m: usize, guests: usize, stations: usize, lasts: usize) -> bool
    ensures { (result gives 13) ≡ book_size n m guests stations lasts }
{
    (((guests < n) | (MAX_GUESTS < guests)) | ((stations < m) | (MAX_STATIONS < stations)))
        | (lasts != MAX_DESKS)
}

// Desks count from 0.
fn desk_out_of_range(desk: u8) -> bool
    ensures { (result gives 25) ≡ no_desk desk }
{
    MAX_DESKS <= usize::from(desk)
}

// A desk's rounds follow one another.
fn round_out_of_turn(round: u32, last: u32) -> bool
    ensures { (result gives 11) ≡ out_of_turn round last }
{
    MAX_ROUND <= last || round != last + 1
}

// The first fault of a round that is settled on a book: its size, its desk, its number, and an account without room.
fn settling_fault(
    r: &Round,
    desk: u8,
    round: u32,
    guests: &[u64],
    stations: &[StationAccount],
    house: u64,
    last: &[u32],
) -> Result<(), Refusal>
    ensures { answer_of_verdict result
        ≡ first_fault (settling r.now desk round (plain (book guests.now stations.now house last.now))).faults }
{
    if book_size_differs(
        r.guests,
        r.stations,
        guests.len(),
        stations.len(),
        last.len(),
    ) {
        return Err(Refusal::BookSize);
    }
    if desk_out_of_range(desk) {
        return Err(Refusal::DeskOutOfRange);
    }
    if round_out_of_turn(round, last[usize::from(desk)]) {
        return Err(Refusal::RoundOutOfTurn);
    }
    let guests_full = accounts::any_exceeds(guests, &r.charges);
    let stations_full = stations::any_exceeds(stations, r);
    let house_full = room::exceeds(house, r.margin.0);
    if guests_full | stations_full | house_full {
        return Err(Refusal::AccountOverLimit);
    }
    Ok(())
}

// Adds the round, or refuses it and changes nothing.
pub fn settle(
    r: &Round,
    desk: u8,
    round: u32,
    guests: &mut [u64],
    stations: &mut [StationAccount],
    house: &mut u64,
    last: &mut [u32],
) -> Result<(), Refusal>
    ensures { Keeps (settling r.now desk round) (plain (book_in guests stations house last))
        (answer_of_verdict result) (plain (book_out guests stations house last)) }
{
    settling_fault(r, desk, round, guests, stations, *house, last)?;
    accounts::add(guests, &r.charges);
    stations::add(stations, r);
    *house += r.margin.0;
    last[usize::from(desk)] = round;
    Ok(())
}
