// An accepted market at its cut, as the steps of a quiet round see it. Guests and stations are named by their index:
// that it is within the round's market is asked beside each, since a type for it would have to carry the market.
ghost use Rattle.quiet.specs.Efficient.{Priced};
ghost use Rattle.quiet.specs.Seating.{Opened, TicketsFit};

use model::lent::AcceptedMarket;
use model::money::UnitPrice;

// With its open stations.
#[derive(Drop)]
pub struct Round<'a> {
    pub market: &'a AcceptedMarket<'a>,
    pub cut: UnitPrice,
    pub opened: &'a [usize],
    ghost priced: { Priced market.now cut.0 },
    ghost open_stations: { Opened market.now.asks cut.0 opened.now },
    ghost tickets: { TicketsFit market.now.tickets },
}

// What a slice's type says of all tickets at once.
pub fn tickets_fit(tickets: &[u32])
    ensures { TicketsFit tickets.now }
{}
