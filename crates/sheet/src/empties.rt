// Whether a bid of a row is 0, and the cursor after the bids, which is a place of the sheet in both cases. No loop has
// a way out before its end, so that four fields are compared at once.
ghost use Rattle.std.specs.Prelude.{◌+◌, ◌*◌, ◌≤◌, length};
ghost use Rattle.sheet.specs.Taken.{Scanned};

use crate::fields::Cursor;

// One of the next N.
fn any_of<const N: usize>(mut cursor: Cursor<'_>) -> (bool, Cursor<'_>)
    requires { cursor.at + 4 * N ≤ length cursor.sheet.now }
    ensures { Scanned cursor.entry N result.0 result.1 }
{
    let mut empty = false;
    for _ in 0..N {
        let (bid, next) = cursor.four();
        empty |= bid == 0;
        cursor = next;
    }
    (empty, cursor)
}

// One of this many.
pub fn any_empty(mut cursor: Cursor<'_>, bids: usize) -> (bool, Cursor<'_>)
    requires { cursor.at + 4 * bids ≤ length cursor.sheet.now }
    ensures { Scanned cursor.entry bids result.0 result.1 }
{
    let mut empty = false;
    for _ in 0..bids / 4 {
        let (found, next) = any_of::<4>(cursor);
        empty |= found;
        cursor = next;
    }
    for _ in 0..bids % 4 {
        let (found, next) = any_of::<1>(cursor);
        empty |= found;
        cursor = next;
    }
    (empty, cursor)
}
