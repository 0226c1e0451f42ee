// The bytes of a comma-separated market, sorted.
ghost use Rattle.market_csv.specs.Bytes.{Sorted};

// A digit with its value, a comma, one of the two bytes of a line end, or a byte that has no place in a text.
#[derive(Clone, Copy)]
pub enum Kind {
    Digit(u8),
    Comma,
    Cr,
    Lf,
    Other,
}

// One match over byte ranges sorts each byte; nothing else looks at its value.
pub fn sort(b: u8) -> Kind
    ensures { Sorted b result }
{
    match b {
        b'0'..=b'9' => Kind::Digit(b - b'0'),
        b',' => Kind::Comma,
        b'\r' => Kind::Cr,
        b'\n' => Kind::Lf,
        _ => Kind::Other,
    }
}
