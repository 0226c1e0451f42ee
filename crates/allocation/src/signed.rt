// Comparison of numbers below 2^31, as signed ones in 32 bits: the processor compares four of them at once. With the
// comparison of `u32` and of `Mills` an assignment takes half as long again.
ghost use Rattle.std.specs.Prelude.{ℕ, ◌^◌, ◌<◌, max, pos, ◌≡◌};
ghost use Rattle.model.specs.Counting.{◌<?◌};

use model::money::Mills;

// A number that may be below 2^31. Each `as` here is of one that is: a `TryFrom` could fail.
pub trait Small: Copy {
    ghost number: { Self → ℕ };

    fn signed(self) -> i32
        requires { number self < 2 ^ 31 }
        ensures { result ≡ pos (number self) };

    fn from_signed(x: i32) -> Self
        requires { (n : ℕ) × (x ≡ pos n) }
        ensures { x ≡ pos (number result) };
}

impl Small for u32 {
    ghost number = { λ x. x };

    fn signed(self) -> i32 {
        self as i32
    }

    fn from_signed(x: i32) -> u32 {
        x as u32
    }
}

impl Small for Mills {
    ghost number = { λ x. x.0 };

    fn signed(self) -> i32 {
        self.narrow() as i32
    }

    fn from_signed(x: i32) -> Mills {
        Mills::from(x as u32)
    }
}

// Whether x is less than y.
pub fn below<T: Small>(x: T, y: T) -> bool
    requires { (T.number x < 2 ^ 31) × (T.number y < 2 ^ 31) }
    ensures { result ≡ T.number x <? T.number y }
{
    x.signed() < y.signed()
}

// The greater of the two.
pub fn larger<T: Small>(x: T, y: T) -> T
    requires { (T.number x < 2 ^ 31) × (T.number y < 2 ^ 31) }
    ensures { T.number result ≡ max (T.number x) (T.number y) }
{
    T::from_signed(x.signed().max(y.signed()))
}
