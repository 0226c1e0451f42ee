// Which stations are open.
ghost use Rattle.std.specs.Prelude.{◌≤◌, length, take};
ghost use Rattle.quiet.specs.Seating.{Opened};

use model::money::UnitPrice;

// The open stations, in rising order; the answer is how many there are. A place is counted in a lent buffer, since
// there is no heap to collect them on.
pub fn open_stations(asks: &[u32], cut: UnitPrice, opened: &mut [usize]) -> usize
    requires { length asks.now ≤ length opened.old }
    ensures { Opened asks.now cut.0 (take result opened.new)
        × (result ≤ length opened.new) }
{
    let mut k = 0;
    for (j, &ask) in asks.iter().enumerate() {
        if UnitPrice(ask) < cut {
            opened[k] = j;
            k += 1;
        }
    }
    k
}
