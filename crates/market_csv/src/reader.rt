// A comma-separated market, read field by field.
ghost use Rattle.std.specs.Prelude.{◌<◌, ◌≡◌, ◌≤◌, length, IfOk, MatchBool};
ghost use Rattle.market_csv.specs.Ends.{Feeding, EnderRead};
ghost use Rattle.market_csv.specs.Reached.{place};
ghost use Rattle.market_csv.specs.Runs.{Ran, Found};

use crate::bytes;
use crate::bytes::Kind;
use crate::numbers::Number;
use model::refusal::Refusal;
use std::marker::Model;

// A text, and the place where its next field starts.
#[derive(Drop)]
pub struct Reader<'a> {
    text: &'a [u8],
    at: usize,
}

impl<'a> Model for Reader<'a> {
    ghost use Rattle.std.specs.Prelude.{◌≡◌, ◌≤◌, length};
    ghost use Rattle.model.specs.csv.Places.{digits_of};
    ghost use Rattle.market_csv.specs.Reached.{Place, place, past};

    ghost Value = { Place };

    ghost view = { λ r. place r.text.now r.at };

    ghost invariant = { λ r. (r.at ≤ length r.text.now) × (digits_of (past r.text.now r.at) ≡ 0) };
}

// The number that digits are, modulo 2^64, the place where they end, and what stands there: the byte that ends a field
// is sorted once.
#[derive(Clone, Copy)]
struct Digits {
    value: u64,
    end: usize,
    stop: Option<Kind>,
}

// A field: its number, whether it has no digits, and whether a line end, and not a comma, ends it. The number is no
// `Option`: that of an empty field is 0, and this is what an empty bid is.
#[derive(Clone, Copy)]
pub struct Field {
    pub value: u64,
    pub empty: bool,
    pub last: bool,
}

// Whether LF stands at a place.
fn feeds(text: &[u8], at: usize) -> bool
    ensures { Feeding text.now at result }
{
    if text.len() <= at {
        return false;
    }
    matches!(bytes::sort(text[at]), Kind::Lf)
}

// Whether a line end, and not a comma, ends the field whose digits end at a place where this stands, and the place
// after it, which there is in both cases.
fn ender(text: &[u8], end: usize, stop: Option<Kind>) -> Result<(bool, usize), Refusal>
    requires { Found text.now end stop }
    ensures { EnderRead text.now end result }
{
    let Some(kind) = stop else {
        return Err(Refusal::MalformedText);
    };
    match kind {
        Kind::Comma => Ok((false, end + 1)),
        Kind::Cr => {
            if feeds(text, end + 1) {
                return Ok((true, end + 2));
            }
            Err(Refusal::MalformedText)
        }
        _ => Err(Refusal::MalformedText),
    }
}

impl<'a> Reader<'a> {
    ghost use Rattle.market_csv.specs.Ends.{FieldRead, TakeRead};

    pub fn new(text: &'a [u8]) -> Reader<'a>
        ensures { result ≡ place text.now 0 }
    {
        Reader { text, at: 0 }
    }

    // Whether the text is over.
    pub fn is_over(&self) -> bool
        ensures { MatchBool result (length self.now.text ≤ self.now.at) (self.now.at < length self.now.text) }
    {
        self.text.len() <= self.at
    }

    // The digits from here on. The loop counts places of the text, since the one where it stops is a part of the
    // answer.
    fn digits(&self) -> Digits
        ensures ran { Ran self.now.text self.now.at result.value result.end }
        ensures found { Found self.now.text result.end result.stop }
    {
        let mut value: u64 = 0;
        for at in self.at..self.text.len() {
            match bytes::sort(self.text[at]) {
                Kind::Digit(digit) => {
                    value = value.wrapping_mul(10).wrapping_add(u64::from(digit));
                }
                stop => {
                    return Digits {
                        value,
                        end: at,
                        stop: Some(stop),
                    };
                }
            }
        }
        Digits {
            value,
            end: self.text.len(),
            stop: None,
        }
    }

    // The next field, of a table whose largest value is most. The reader goes on to the one after it.
    pub fn field(&mut self, most: u64) -> Result<Field, Refusal>
        ensures small { IfOk result (λ x. x.value ≤ most) }
        ensures read { FieldRead self.old most self.new result }
    {
        let digits = self.digits();
        if (10 < digits.end - self.at) | (most < digits.value) {
            return Err(Refusal::FieldTooLarge);
        }
        let (last, next) = ender(self.text, digits.end, digits.stop)?;
        let empty = digits.end == self.at;
        self.at = next;
        Ok(Field {
            value: digits.value,
            empty,
            last,
        })
    }

    // The next field of a line whose count of fields is known: the last one ends the line, no other does.
    pub fn take<T: Number>(&mut self, may_be_empty: bool, last: bool) -> Result<T, Refusal>
        ensures { TakeRead T.number_of T.MOST may_be_empty last self.old self.new result }
    {
        let field = self.field(T::MOST)?;
        if (field.last != last) | (field.empty & !may_be_empty) {
            return Err(Refusal::MalformedText);
        }
        Ok(T::number_of(field.value))
    }
}
