// Bytes, words, numbers and lines, written into a lent buffer as far as it reaches. A buffer and the place reached in
// it stay two parameters: of a struct of both each function would have to promise too that the buffer is still the one
// that was lent (model/lent). Numbers are not written by `Display`: what the buffer cannot hold is counted too.
ghost use Rattle.std.specs.Prelude.{ℕ, ◌+◌, ◌<◌, ◌^◌, ◌∷◌, ◌++◌, [], length};
ghost use Rattle.model.specs.text.Decimal.{digits, field};
ghost use Rattle.model.specs.text.Lines.{line_end};
ghost use Rattle.sheet.specs.Wrote.{Wrote};

// A byte at a place, if the buffer reaches that far.
pub fn put(out: &mut [u8], at: usize, b: u8) -> usize
    requires { at + 1 < 2 ^ 64 }
    ensures { Wrote out.old at (b ∷ []) out.new result }
{
    if at < out.len() {
        out[at] = b;
    }
    at + 1
}

// The bytes of a word.
pub fn put_word(out: &mut [u8], at: usize, word: &[u8]) -> usize
    requires { at + length word.now < 2 ^ 64 }
    ensures { Wrote out.old at word.now out.new result }
{
    let mut p = at;
    for b in word {
        p = put(out, p, *b);
    }
    p
}

// A number in decimal. A rest below 10 fits a byte, where a `TryFrom` could fail.
fn put_number(out: &mut [u8], at: usize, x: u64) -> usize
    requires { at + 20 < 2 ^ 64 }
    ensures { (k : ℕ) → x < 10 ^ (k + 1)
        → Wrote out.old at (digits (k + 1) x) out.new result }
{
    let digit = b'0' + (x % 10) as u8;
    if x < 10 {
        return put(out, at, digit);
    }
    let p = put_number(out, at, x / 10);
    put(out, p, digit)
}

// A word and a number.
pub fn put_field(out: &mut [u8], at: usize, word: &[u8], x: u64) -> usize
    requires { at + length word.now + 20 < 2 ^ 64 }
    ensures { Wrote out.old at (field word.now x) out.new result }
{
    let p = put_word(out, at, word);
    put_number(out, p, x)
}

// A line of one field.
pub fn put_line(out: &mut [u8], at: usize, word: &[u8], x: u64) -> usize
    requires { at + length word.now + 21 < 2 ^ 64 }
    ensures { Wrote out.old at (field word.now x ++ line_end) out.new result }
{
    let p = put_field(out, at, word, x);
    put(out, p, b'\n')
}

// A line of three.
pub fn put_three(
    out: &mut [u8],
    at: usize,
    first: (&[u8], u64),
    second: (&[u8], u64),
    third: (&[u8], u64),
) -> usize
    requires { at + length first.0.now + length second.0.now + length third.0.now + 61 < 2 ^ 64 }
    ensures { Wrote out.old at
        (field first.entry.0.now first.entry.1 ++ field second.entry.0.now second.entry.1
        ++ field third.entry.0.now third.entry.1 ++ line_end) out.new result }
{
    let p = put_field(out, at, first.0, first.1);
    let q = put_field(out, p, second.0, second.1);
    put_line(out, q, third.0, third.1)
}
