// The text of a clearing and of a refusal, as bytes in a lent buffer.
ghost use Rattle.std.specs.Prelude.{◌≤◌, ◌≡◌, length};
ghost use Rattle.model.specs.Limits.{max_guests, max_stations};
ghost use Rattle.model.specs.Numbers.{number as number_of};
ghost use Rattle.model.specs.market.Outcome.{outcome_of};
ghost use Rattle.model.specs.text.Text.{text, refusal_text};
ghost use Rattle.sheet.specs.Wrote.{Wrote};

use crate::{lines, text};
use model::answers::Figures;
use model::refusal::Refusal;

// A refusal's line.
pub fn refusal_text(refusal: Refusal, out: &mut [u8]) -> usize
    ensures { Wrote out.old 0 (refusal_text (number_of refusal)) out.new result }
{
    text::put_line(out, 0, b"refused ", u64::from(u8::from(refusal)))
}

// The lists are those of a cleared market, one by one as the clearing was lent them.
pub fn clearing_text(
    figures: Figures,
    stations: &[u16],
    charges: &[u32],
    sold: &[u32],
    paid: &[u64],
    out: &mut [u8],
) -> usize
    requires { (length stations.now ≤ max_guests) × (length charges.now ≡ length stations.now)
        × (length sold.now ≤ max_stations) × (length paid.now ≡ length sold.now) }
    ensures { Wrote out.old 0
        (text (outcome_of figures.cut.0 figures.margin.0 stations.now charges.now sold.now
        paid.now)) out.new result }
{
    let a = text::put_line(out, 0, b"cut ", u64::from(figures.cut.0));
    let b = lines::guest_lines(out, a, stations, charges);
    let c = lines::station_lines(out, b, sold, paid);
    text::put_line(out, c, b"margin ", figures.margin.0)
}
