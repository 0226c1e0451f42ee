// The set bits of a word of 64 bits: how many there are, and their places from the lowest on. The casts are from u32 to
// usize, for which std has no `From`.
#![tactic(auto)]

ghost use Rattle.std.specs.Prelude.{◌≡◌};
ghost use Rattle.std.specs.Iterator.{item_count};
ghost use Rattle.model.specs.Counting.{count as count_of, passing};
ghost use Rattle.model.specs.sheet.Fields.{has_bit};
ghost use Rattle.model.specs.clauses.Steps.{Steps};

// How many bits are set.
pub fn count(word: u64) -> usize
    ensures { result ≡ count_of 64 (has_bit word) }
{
    word.count_ones() as usize
}

// The places of the bits that are left.
#[derive(Drop)]
pub struct SetBits {
    pub left: u64,
}

impl Iterator for SetBits {
    type Item = usize;

    ghost next_gives = { λ s place rest. Steps s.left place rest.left };

    ghost remaining = { item_count (λ s. passing 64 (has_bit s.left)) };

    fn next(&mut self) -> Option<usize> {
        if self.left == 0 {
            return None;
        }
        let place = self.left.trailing_zeros() as usize;
        self.left &= self.left - 1;
        Some(place)
    }
}

// The places of the set bits.
pub fn set_bits(word: u64) -> SetBits
    ensures { result.left ≡ word }
{
    SetBits { left: word }
}
