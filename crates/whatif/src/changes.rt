// Who becomes seated and who becomes unseated, from one list of stations to another.
ghost use Rattle.std.specs.Prelude.{cond, ◌≡◌, length, get_or};
ghost use Rattle.model.specs.Counting.{◌=?◌};
ghost use Rattle.model.specs.market.Changes.{seat_change, changes as changesOf};
ghost use Rattle.whatif.specs.Changes.{number_of};

// What happens to a guest's seat.
#[derive(Clone, Copy)]
enum SeatChange {
    Neither,
    Seated,
    Unseated,
}

// The byte that stands for it in the lent table.
impl From<SeatChange> for u8 {
    ghost from_gives = { λ change number. number ≡ number_of change };

    fn from(change: SeatChange) -> u8 {
        match change {
            SeatChange::Neither => 0,
            SeatChange::Seated => 1,
            SeatChange::Unseated => 2,
        }
    }
}

// From one station to another, by their numbers: 0 is none, as the lent lists have it.
fn seat_change(before: u16, after: u16) -> SeatChange
    ensures { number_of result ≡ seat_change before after }
{
    match (before, after) {
        (0, 0) => SeatChange::Neither,
        (0, _) => SeatChange::Seated,
        (_, 0) => SeatChange::Unseated,
        _ => SeatChange::Neither,
    }
}

// Neither for the guest whose row is another.
fn change(guest: usize, k: usize, before: u16, after: u16) -> SeatChange
    ensures { number_of result ≡ cond (k =? guest) 0 (seat_change before after) }
{
    if k == guest {
        return SeatChange::Neither;
    }
    seat_change(before, after)
}

// The byte of each guest's change. The three lists are as long as there are guests.
pub fn tell_changes(before: &[u16], after: &[u16], guest: usize, changes: &mut [u8])
    requires { (length after.now ≡ length before.now) × (length changes.old ≡ length before.now) }
    ensures { changes.new ≡ changesOf (length before.now)
        (λ k. get_or before.now k 0) (λ k. get_or after.now k 0) guest }
{
    for (k, place) in changes.iter_mut().enumerate() {
        *place = u8::from(change(guest, k, before[k], after[k]));
    }
}
