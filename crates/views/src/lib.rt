// Document 01's view of the bid table.
#![tactic(auto)]

ghost use Rattle.std.specs.Prelude.{◌≡◌};
ghost use Rattle.model.specs.clauses.Rows.{row_of, bids_of};

// The lent bids with their row width.
#[derive(Clone, Copy)]
pub struct BidTable<'a> {
    pub bids: &'a [u32],
    pub width: usize,
}

impl<'a> BidTable<'a> {
    // The bids of a guest, counted from 1, as a part of the lent table: empty for guest 0 and for a row that ends past
    // the table.
    pub fn row(self, guest: usize) -> &'a [u32]
        ensures { result.now ≡ row_of self.entry.bids.now self.entry.width guest }
    {
        match self.bids.len().checked_div(self.width) {
            Some(guests) if 0 < guest && guest <= guests => {
                let end = guest * self.width;
                &self.bids[end - self.width..end]
            }
            _ => &self.bids[..0],
        }
    }

    // All bids, where a row is as wide as there are stations; none where not.
    pub fn all(self, stations: usize) -> &'a [u32]
        ensures { result.now ≡ bids_of self.entry.bids.now self.entry.width stations }
    {
        if self.width == stations {
            self.bids
        } else {
            &self.bids[..0]
        }
    }
}

// The same from plain parameters.
pub fn row_through_view(bids: &[u32], width: usize, guest: usize) -> &[u32]
    ensures { result.now ≡ row_of bids.now width guest }
{
    BidTable { bids, width }.row(guest)
}

pub fn bids_through_view(bids: &[u32], width: usize, stations: usize) -> &[u32]
    ensures { result.now ≡ bids_of bids.now width stations }
{
    BidTable { bids, width }.all(stations)
}
