// The lines of guests and stations, as bytes in a lent buffer. Each loop names its own words and lists: one for both
// would take three words and a closure for the numbers. A line tells its number, from 1, and is of two lists at it: std
// has no `From` from `usize` to `u64`.
ghost use Rattle.std.specs.Prelude.{◌<◌, ◌≤◌, ◌^◌, ◌≡◌, length};
ghost use Rattle.model.specs.Limits.{max_guests, max_stations};
ghost use Rattle.model.specs.text.Lines.{guest_lines, station_lines};
ghost use Rattle.sheet.specs.Wrote.{Wrote};

use crate::text;

// The lists are those of a cleared market.
pub fn guest_lines(out: &mut [u8], at: usize, stations: &[u16], charges: &[u32]) -> usize
    requires { (at < 2 ^ 16) × (length stations.now ≤ max_guests)
        × (length charges.now ≡ length stations.now) }
    ensures { Wrote out.old at
        (guest_lines stations.now charges.now (length stations.now))
        out.new result }
{
    let mut p = at;
    for k in 0..stations.len() {
        p = text::put_three(
            out,
            p,
            (b"guest ", k as u64 + 1),
            (b" station ", u64::from(stations[k])),
            (b" charge ", u64::from(charges[k])),
        );
    }
    p
}

// The same of the stations' two lists.
pub fn station_lines(out: &mut [u8], at: usize, sold: &[u32], paid: &[u64]) -> usize
    requires { (at < 2 ^ 16) × (length sold.now ≤ max_stations) × (length paid.now ≡ length sold.now) }
    ensures { Wrote out.old at
        (station_lines sold.now paid.now (length sold.now)) out.new result }
{
    let mut p = at;
    for k in 0..sold.len() {
        p = text::put_three(
            out,
            p,
            (b"station ", k as u64 + 1),
            (b" sold ", u64::from(sold[k])),
            (b" paid ", paid[k]),
        );
    }
    p
}
