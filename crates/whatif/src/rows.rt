// A guest's row laid over a copy of the bids.
ghost use Rattle.std.specs.Prelude.{◌+◌, ◌*◌, ◌≤◌, ◌≡◌, length};
ghost use Rattle.std.proofs.Math.Seq.{paste};

// Guests count from 0 here.
pub fn lay_row(bids: &[u32], row: &[u32], guest: usize, table: &mut [u32])
    requires { (length table.old ≡ length bids.now)
        × (guest * length row.now + length row.now ≤ length bids.now) }
    ensures { table.new ≡ paste bids.now (guest * length row.now)
        row.now (length row.now) }
{
    table.copy_from_slice(bids);
    copies::put(row, guest * row.len(), table);
}
