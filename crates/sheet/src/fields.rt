// The fields of a sheet: numbers of 2 and of 4 bytes and bit maps, each with the place after it. What is required is
// that the sheet does not end inside the field that is taken: one inequality, for which a name would say no more.
ghost use Rattle.std.specs.Prelude.{◌+◌, ◌*◌, ◌<◌, ◌≤◌, ◌≡◌, length, slice_range, IfErr, OnOk};
ghost use Rattle.model.specs.Limits.{max_stations};
ghost use Rattle.model.specs.Counting.{◌≤?◌};
ghost use Rattle.model.specs.declared.refusal.Refusal.TheVariants.{SheetEnds};
ghost use Rattle.model.specs.sheet.Fields.{map_width};

use model::refusal::Refusal;

// A sheet, and the place reached in it. Each place comes from the one before, by what is taken there.
#[derive(Clone, Copy)]
pub struct Cursor<'a> {
    sheet: &'a [u8],
    at: usize,
    ghost within: { at ≤ length sheet.now },
}

impl<'a> Cursor<'a> {
    ghost use Rattle.sheet.specs.Taken.{Started, Moved, Taken, Whole};

    // At the sheet's start.
    pub fn new(sheet: &'a [u8]) -> Cursor<'a>
        ensures { Started sheet.now result }
    {
        Cursor { sheet, at: 0 }
    }

    // Refuses where the sheet ends inside the next k bytes.
    pub fn needs(self, k: usize) -> Result<(), Refusal>
        ensures ends { IfErr result (λ refusal. (refusal ≡ SheetEnds)
            × (length self.entry.sheet.now < self.entry.at + k)) }
        ensures enough { OnOk result (self.entry.at + k ≤ length self.entry.sheet.now) }
    {
        if self.sheet.len() - self.at < k {
            return Err(Refusal::SheetEnds);
        }
        Ok(())
    }

    // Whether it ends here.
    pub fn at_end(self) -> bool
        ensures { result ≡ (length self.entry.sheet.now ≤? self.entry.at) }
    {
        self.at == self.sheet.len()
    }

    // How many of this many fields of 4 bytes the sheet does not end inside.
    pub fn whole(self, fields: usize) -> usize
        ensures { Whole self.entry fields result }
    {
        fields.min((self.sheet.len() - self.at) / 4)
    }

    // Past k bytes.
    pub fn skip(self, k: usize) -> Cursor<'a>
        requires { self.at + k ≤ length self.sheet.now }
        ensures { Moved self.entry k result }
    {
        Cursor {
            sheet: self.sheet,
            at: self.at + k,
        }
    }

    // The next N bytes, as an array: of that `from_le_bytes` makes a number.
    fn bytes<const N: usize>(self) -> ([u8; N], Cursor<'a>)
        requires { self.at + N ≤ length self.sheet.now }
        ensures { (result.0 ≡ slice_range self.entry.sheet.now self.entry.at (self.entry.at + N))
            × Moved self.entry N result.1 }
    {
        let mut bytes = [0; N];
        bytes.copy_from_slice(&self.sheet[self.at..self.at + N]);
        (bytes, self.skip(N))
    }

    // A field of 2 bytes. This and the next are not one function of a type: `from_le_bytes` is of no trait, and a trait
    // with it for two types is longer than both.
    pub fn two(self) -> (u16, Cursor<'a>)
        requires { self.at + 2 ≤ length self.sheet.now }
        ensures { Taken self.entry 2 result.0 result.1 }
    {
        let (bytes, next) = self.bytes();
        (u16::from_le_bytes(bytes), next)
    }

    // A field of 4 bytes.
    pub fn four(self) -> (u32, Cursor<'a>)
        requires { self.at + 4 ≤ length self.sheet.now }
        ensures { Taken self.entry 4 result.0 result.1 }
    {
        let (bytes, next) = self.bytes();
        (u32::from_le_bytes(bytes), next)
    }

    // The number that the next N bytes hold, in the eight of a word.
    fn number<const N: usize>(self) -> (u64, Cursor<'a>)
        requires { (N ≤ 8) × (self.at + N ≤ length self.sheet.now) }
        ensures { Taken self.entry N result.0 result.1 }
    {
        let mut word = [0; 8];
        let (bytes, next) = self.bytes::<N>();
        word[..N].copy_from_slice(&bytes);
        (u64::from_le_bytes(word), next)
    }

    // A bit map. Each width has its own arm, so that the copy is of a known length; no const argument is computed.
    pub fn map(self, stations: usize) -> (u64, Cursor<'a>)
        requires { (stations ≤ max_stations) × (self.at + map_width stations ≤ length self.sheet.now) }
        ensures { Taken self.entry (map_width stations) result.0 result.1 }
    {
        match map_width(stations) {
            0 => (0, self),
            1 => self.number::<1>(),
            2 => self.number::<2>(),
            3 => self.number::<3>(),
            4 => self.number::<4>(),
            _ => self.number::<5>(),
        }
    }
}

// The bytes of a bit map.
pub fn map_width(stations: usize) -> usize
    requires { stations ≤ max_stations }
    ensures { result ≡ map_width stations }
{
    stations.div_ceil(8)
}
