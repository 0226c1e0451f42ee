// The posting of a round for other languages: include/bay_market.h.
ghost use Rattle.std.specs.Prelude.{◌≡◌};
ghost use Rattle.model.specs.Verdicts.{number_of};
ghost use Rattle.model.specs.Numbers.{answer_of_verdict};
ghost use Rattle.model.specs.book.Posting.{posting};
ghost use Rattle.model.specs.clauses.Lent.{tables_in, book_in, book_out};
ghost use Rattle.model.specs.clauses.EntryPoints.{entering};
ghost use Rattle.model.specs.Promises.{RepliesOut};
ghost use Rattle.model.specs.book.Book.{plain};

use model::account::StationAccount;
use model::lent::Market;
use model::refusal::Refusal;

// 0 for a call that was accepted, or the refusal's number.
#[tactic(auto, unfolding(model::specs::Numbers::answer_of_verdict, model::specs::Verdicts::number_of))]
pub fn reply_number(reply: Result<(), Refusal>) -> u8
    ensures { result ≡ number_of (answer_of_verdict reply) }
{
    match reply {
        Ok(()) => 0,
        Err(refusal) => u8::from(refusal),
    }
}

#[unsafe(no_mangle)]
pub extern "C" fn bay_market_post(
    rule: u8,
    asks: &[u32],
    bays: &[u16],
    amounts: &[u16],
    tickets: &[u32],
    bids: &[u32],
    width: usize,
    desk: u8,
    round: u32,
    guests: &mut [u64],
    stations: &mut [StationAccount],
    house: &mut u64,
    last: &mut [u32],
) -> u8
    ensures { RepliesOut (entering (posting rule (tables_in asks bays amounts tickets bids width) desk round))
        (plain (book_in guests stations house last)) result (plain (book_out guests stations house last)) }
{
    let market = Market {
        asks,
        bays,
        amounts,
        tickets,
        bids,
        width,
    };
    let reply = ledger::post(rule, &market, desk, round, guests, stations, house, last);
    reply_number(reply)
}
