// The stations' accounts, a row of records: whether each has room for what a round adds, and the sums.
ghost use Rattle.std.specs.Prelude.{◌≡◌, ◌≤◌, length, get_or};
ghost use Rattle.model.specs.Limits.{max_stations};
ghost use Rattle.model.specs.Counting.{◌or◌};
ghost use Rattle.model.specs.book.Book.{sold_of, paid_of};
ghost use Rattle.model.specs.book.PlainBook.{raised};
ghost use Rattle.ledger.specs.Accounts.{Addable};
ghost use Rattle.ledger.specs.Room.{exceeding};

use crate::room;
use crate::round::Round;
use model::account::StationAccount;

// Whether a station's account would be above its limit, of those of a book that is not too large.
pub fn any_exceeds(stations: &[StationAccount], r: &Round) -> bool
    requires { length stations.now ≤ max_stations }
    ensures { result
        ≡ (exceeding (sold_of stations.now) r.now.sold
        or exceeding (paid_of stations.now) r.now.paid) }
{
    let sold = stations.iter().zip(&r.sold).any(|(account, sold)| room::exceeds(
        account.sold,
        u64::from(*sold),
    ));
    let paid = stations
        .iter()
        .zip(&r.paid)
        .any(|(account, paid)| room::exceeds(account.paid, *paid));
    sold | paid
}

// Each account has room for what is added. By index: what is sold and what is paid stand in a list each, of which the
// round's stations are the first.
pub fn add(stations: &mut [StationAccount], r: &Round)
    requires few { (r.now.stations ≤ length stations.old) × (length stations.old ≤ max_stations) }
    requires addable { Addable (sold_of stations.old) r.now.sold × Addable (paid_of stations.old) r.now.paid }
    ensures { (sold_of stations.new
        ≡ raised r.now.stations (λ j. get_or r.now.sold j 0) (sold_of stations.old))
        × (paid_of stations.new
        ≡ raised r.now.stations (λ j. get_or r.now.paid j 0) (paid_of stations.old)) }
{
    for j in 0..r.stations {
        let account = &mut stations[j];
        account.sold += u64::from(r.sold[j]);
        account.paid += r.paid[j];
    }
}
