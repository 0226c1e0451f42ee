// Lists of numbers of any width: written over a table, joined and compared.
#![tactic(auto)]

ghost use Rattle.std.specs.Prelude.{◌+◌, ◌++◌, ◌≤◌, ◌≡◌, length};
ghost use Rattle.std.proofs.Math.Seq.{paste};
ghost use Rattle.std.specs.Cmp.Lexicographic.{pointwise};

// The first n of a list over the places of a table from `at` on. A loop, and no `copy_from_slice`: where the compiler
// is not told that the lists are apart, that calls `memmove`, which the archive would want of its users.
pub fn put_first<T: Copy>(from: &[T], n: usize, at: usize, table: &mut [T])
    requires { (n ≤ length from.now) × (at + n ≤ length table.old) }
    ensures { table.new ≡ paste table.old at from.now n }
{
    for i in 0..n {
        table[at + i] = from[i];
    }
}

// All of it.
pub fn put<T: Copy>(from: &[T], at: usize, table: &mut [T])
    requires { at + length from.now ≤ length table.old }
    ensures { table.new ≡ paste table.old at from.now (length from.now) }
{
    put_first(from, from.len(), at, table);
}

// One list after another over a table that is as long as both.
pub fn join_lists<T: Copy>(first: &[T], second: &[T], table: &mut [T])
    requires { length table.old ≡ length first.now + length second.now }
    ensures { table.new ≡ first.now ++ second.now }
{
    put(first, 0, table);
    put(second, first.len(), table);
}

// Whether two lists are the same. No way out before the end: several elements a step.
pub fn same<T: PartialEq>(xs: &[T], ys: &[T]) -> bool
    ensures { result ≡ pointwise T.eq xs.now ys.now }
{
    xs.len() == ys.len() && xs.iter().zip(ys).fold(true, |all, (x, y)| all & (x == y))
}
