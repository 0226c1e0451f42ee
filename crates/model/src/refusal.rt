// The refusals of the bay market.
ghost use Rattle.std.specs.Prelude.{◌≡◌};
ghost use Rattle.model.specs.Numbers.{number as number_of};

// What a call refuses, each case named by its fault.
#[derive(Clone, Copy)]
pub enum Refusal {
    SheetEnds,
    CountsOutOfRange,
    StrayBit,
    TrailingBytes,
    LengthsDiffer,
    AskOutOfRange,
    BaysOutOfRange,
    AmountOutOfRange,
    BidOutOfRange,
    LentLengths,
    RoundOutOfTurn,
    AccountOverLimit,
    BookSize,
    OutputTooShort,
    TicketsRepeat,
    CellOffGrid,
    PriceOrFallOutOfRange,
    UnknownRule,
    EmptyBid,
    StationsDiffer,
    TicketInBoth,
    MalformedText,
    FieldTooLarge,
    NoSuchGuest,
    DeskOutOfRange,
}

// Its number in document 01.
impl From<Refusal> for u8 {
    ghost from_gives = { λ refusal number. number ≡ number_of refusal };

    fn from(refusal: Refusal) -> u8 {
        match refusal {
            Refusal::SheetEnds => 1,
            Refusal::CountsOutOfRange => 2,
            Refusal::StrayBit => 3,
            Refusal::TrailingBytes => 4,
            Refusal::LengthsDiffer => 5,
            Refusal::AskOutOfRange => 6,
            Refusal::BaysOutOfRange => 7,
            Refusal::AmountOutOfRange => 8,
            Refusal::BidOutOfRange => 9,
            Refusal::LentLengths => 10,
            Refusal::RoundOutOfTurn => 11,
            Refusal::AccountOverLimit => 12,
            Refusal::BookSize => 13,
            Refusal::OutputTooShort => 14,
            Refusal::TicketsRepeat => 15,
            Refusal::CellOffGrid => 16,
            Refusal::PriceOrFallOutOfRange => 17,
            Refusal::UnknownRule => 18,
            Refusal::EmptyBid => 19,
            Refusal::StationsDiffer => 20,
            Refusal::TicketInBoth => 21,
            Refusal::MalformedText => 22,
            Refusal::FieldTooLarge => 23,
            Refusal::NoSuchGuest => 24,
            Refusal::DeskOutOfRange => 25,
        }
    }
}
