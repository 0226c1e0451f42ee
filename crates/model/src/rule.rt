// The rules for the position of the cut, and the numbers by which calls and postings name them.
ghost use Rattle.std.specs.Prelude.{◌≡◌};
ghost use Rattle.model.specs.market.Rules.{named};

use crate::refusal::Refusal;

#[derive(Clone, Copy)]
pub enum Rule {
    // Rule 1: ceil((m + 1) / 2).
    Median,
    // Rule 2: floor(2 m / 3) + 1.
    TwoThirds,
}

impl TryFrom<u8> for Rule {
    type Error = Refusal;

    ghost try_from_gives = { λ number rule. rule ≡ named number };

    fn try_from(number: u8) -> Result<Rule, Refusal> {
        match number {
            1 => Ok(Rule::Median),
            2 => Ok(Rule::TwoThirds),
            _ => Err(Refusal::UnknownRule),
        }
    }
}
