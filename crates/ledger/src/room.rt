// The room that an account has.
ghost use Rattle.std.specs.Prelude.{◌+◌, ◌≡◌};
ghost use Rattle.model.specs.Limits.{max_account};
ghost use Rattle.model.specs.Counting.{◌<?◌};

use model::limits::MAX_ACCOUNT;

// Whether an account would be above its limit with what is added. Mills and sums of kWh have the same limit.
pub fn exceeds(account: u64, add: u64) -> bool
    ensures { result ≡ (max_account <? account + add) }
{
    MAX_ACCOUNT < account.saturating_add(add)
}
