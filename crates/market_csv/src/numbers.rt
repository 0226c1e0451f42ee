// The numbers of a market's tables, of 16 bits or of 32, an impl for each. The casts narrow a value that is at most
// `MOST`: a `TryFrom` could fail, which this cannot.

pub trait Number: Copy {
    // The greatest of them.
    const MOST: u64;

    ghost use Rattle.std.specs.Prelude.{◌≡◌, ℕ, ◌≤◌};

    ghost MOST: { ℕ };

    ghost number_of: { ℕ → Self };

    // The number that a value is.
    fn number_of(value: u64) -> Self
        requires { value ≤ MOST }
        ensures { result ≡ number_of value };
}

impl Number for u16 {
    const MOST: u64 = 65_535;

    ghost MOST = { 65_535 };

    ghost number_of = { λ v. v };

    fn number_of(value: u64) -> u16 {
        value as u16
    }
}

impl Number for u32 {
    const MOST: u64 = 4_294_967_295;

    ghost MOST = { 4_294_967_295 };

    ghost number_of = { λ v. v };

    fn number_of(value: u64) -> u32 {
        value as u32
    }
}
