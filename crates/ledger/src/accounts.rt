// The guests' accounts: whether each has room for what a round adds, and the sums.
ghost use Rattle.std.specs.Prelude.{◌≤◌, ◌≡◌, length};
ghost use Rattle.model.specs.Limits.{max_guests};
ghost use Rattle.ledger.specs.Accounts.{plus, Addable};
ghost use Rattle.ledger.specs.Room.{exceeding};

use crate::room;
use model::limits::MAX_GUESTS;

// Whether a guest's account would be above its limit, of those of a book that is not too large.
pub fn any_exceeds(accounts: &[u64], charges: &[u32; MAX_GUESTS]) -> bool
    requires { length accounts.now ≤ max_guests }
    ensures { result ≡ exceeding accounts.now charges.now }
{
    accounts.iter().zip(charges).any(|(account, charge)| room::exceeds(
        *account,
        u64::from(*charge),
    ))
}

// Each account has room for its charge.
pub fn add(accounts: &mut [u64], charges: &[u32; MAX_GUESTS])
    requires { (length accounts.old ≤ max_guests) × Addable accounts.old charges.now }
    ensures { accounts.new ≡ plus accounts.old charges.now }
{
    for (k, account) in accounts.iter_mut().enumerate() {
        *account += u64::from(charges[k]);
    }
}
