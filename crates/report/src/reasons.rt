// The page of what decided: a line for each guest, as bytes in a lent buffer.
ghost use Rattle.std.specs.Prelude.{◌+◌, ◌<◌, ◌≤◌, ◌^◌};
ghost use Rattle.model.specs.Limits.{max_guests};
ghost use Rattle.model.specs.Counting.{joined};
ghost use Rattle.model.specs.Numbers.{code_of};
ghost use Rattle.model.specs.text.ReasonsText.{reason_word, loss_line};
ghost use Rattle.sheet.specs.Wrote.{Wrote};
ghost use Rattle.explain.specs.Outcomes.{record_at};
ghost use Rattle.report.specs.Records.{record_line};

use crate::text;
use explain::explained::OutcomeArrays;
use explain::outcomes;
use model::reason::{GuestOutcome, GuestResult, Reason};

fn put_reason(out: &mut [u8], at: usize, reason: Reason) -> usize
    requires { at < 2 ^ 33 }
    ensures { Wrote out.old at (reason_word (code_of reason)) out.new result }
{
    match reason {
        Reason::NoBid => text::put_word(out, at, b"no bid"),
        Reason::NotOpen => text::put_word(out, at, b"station not open"),
        Reason::BelowCut => text::put_word(out, at, b"bid below the cut"),
        Reason::Outbid => text::put_word(out, at, b"outbid"),
    }
}

fn loss_line(out: &mut [u8], at: usize, guest: u64, reason: Reason) -> usize
    requires { at < 2 ^ 32 }
    ensures { Wrote out.old at (loss_line guest (code_of reason)) out.new result }
{
    let p = text::put_field(out, at, b"guest ", guest);
    let q = text::put_word(out, p, b" loses: ");
    let r = put_reason(out, q, reason);
    text::put(out, r, b'\n')
}

fn outcome_line(out: &mut [u8], at: usize, guest: u64, outcome: GuestOutcome) -> usize
    requires { at < 2 ^ 32 }
    ensures { Wrote out.old at (record_line guest outcome) out.new result }
{
    match outcome.result {
        GuestResult::Win { station, charge } => text::put_three(
            out,
            at,
            (b"guest ", guest),
            (b" wins station ", u64::from(station)),
            (b" charge ", charge.0),
        ),
        GuestResult::Loss(reason) => loss_line(out, at, guest, reason),
    }
}

// There are no more guests than a market has. They are numbered from 1: std has no `From` from `usize` to `u64`.
pub fn reasons_text(told: &OutcomeArrays, out: &mut [u8]) -> usize
    requires { told.now.guests ≤ max_guests }
    ensures { Wrote out.old 0
        (joined told.now.guests (λ k. record_line (k + 1) (record_at told.now k))) out.new result }
{
    let mut p = 0;
    for k in 0..told.guests {
        let outcome = outcomes::outcome_at(told, k);
        p = outcome_line(out, p, k as u64 + 1, outcome);
    }
    p
}
