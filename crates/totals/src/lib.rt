// Booking at finish, undo and total clear.
#![tactic(auto)]

ghost use Rattle.std.specs.Prelude.{◌≡◌, ◌-◌};
ghost use Rattle.outline.specs.Totals.{clear_totals, bookable, booked_totals, booked_sequence, none_back, taken_back};

use types::stages::{Sequence, SequenceError, Totals};

// Total, in display digits.
const TOTAL_LIMIT: u64 = 99_999_999;

// Count of batches.
const BATCH_LIMIT: u32 = 99_999_999;

// The totals of an opening and of a clear.
pub fn clear_totals() -> Totals
    ensures { result ≡ clear_totals }
{
    Totals {
        total: 0,
        count: 0,
        back: None,
    }
}

// v is 0 or more, and neither total nor count would pass its limit.
fn is_bookable(t: Totals, v: i64) -> bool
    ensures { result ≡ bookable t v }
{
    if v < 0 {
        return false;
    }
    let weight = whole::magnitude(v);
    if TOTAL_LIMIT < weight {
        return false;
    }
    if TOTAL_LIMIT - weight < t.total {
        return false;
    }
    t.count < BATCH_LIMIT
}

// The totals after a finish.
pub fn booked_totals(t: Totals, v: i64) -> Totals
    ensures { result ≡ booked_totals t v }
{
    if !is_bookable(t, v) {
        return t;
    }
    let weight = whole::magnitude(v);
    Totals {
        total: t.total + weight,
        count: t.count + 1,
        back: Some(weight),
    }
}

// The sequence after a finish: error 10 where the batch is not booked.
pub fn booked_sequence(t: Totals, v: i64, q: Sequence) -> Sequence
    ensures { result ≡ booked_sequence t v q }
{
    if is_bookable(t, v) {
        return q;
    }
    Sequence {
        stage: q.stage,
        clock: q.clock,
        error: SequenceError::NotBooked,
        judgement: q.judgement,
    }
}

// Nothing to take back.
pub fn has_none_back(t: Totals) -> bool
    ensures { result ≡ none_back t.back }
{
    t.back.is_none()
}

// Undo: the last booked batch is taken back, once. The differences stop at 0.
pub fn take_back(t: Totals) -> Totals
    ensures { result ≡ taken_back t }
{
    match t.back {
        None => t,
        Some(v) => Totals {
            total: t.total.saturating_sub(v),
            count: t.count.saturating_sub(1),
            back: None,
        },
    }
}
