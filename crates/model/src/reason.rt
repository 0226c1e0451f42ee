// What a guest is told of a truthful round.
ghost use Rattle.std.specs.Prelude.{◌≡◌};
ghost use Rattle.model.specs.Numbers.{code_of};

use crate::money::Mills;

// Why a guest holds no place at a station, each case named by its fact.
#[derive(Clone, Copy)]
pub enum Reason {
    NoBid,
    NotOpen,
    BelowCut,
    Outbid,
}

// Its code in document 02.
impl From<Reason> for u8 {
    ghost from_gives = { λ reason code. code ≡ code_of reason };

    fn from(reason: Reason) -> u8 {
        match reason {
            Reason::NoBid => 1,
            Reason::NotOpen => 2,
            Reason::BelowCut => 3,
            Reason::Outbid => 4,
        }
    }
}

// A win with its station and charge, or a loss with the reason of its highest code. No `Result`: document 01 names this
// form, and a loss is no failure of a call.
#[derive(Clone, Copy)]
pub enum GuestResult {
    Win { station: u16, charge: Mills },
    Loss(Reason),
}

// A guest's record in the outcome table.
#[derive(Clone, Copy)]
pub struct GuestOutcome {
    pub result: GuestResult,
}
