// Step 4: whether the tick's request is accepted, by the outline's table of refusals. What an accepted request does is a call of its
// section, which the tick makes.
#![tactic(auto)]

ghost use Rattle.std.specs.Prelude.{◌≡◌, cond, [], ◌∷◌, Err};
ghost use Rattle.outline.specs.Requests.{row1, row2, row3, row4, row5, row6, row7, row8, row9, rows_to, first_of, grant_of};
ghost use Rattle.outline.specs.Setpoints.{setpoints_fit};

use types::requests::{Refusal, Request};
use types::settings::{Mode, Range};
use types::stages::{Sequence, Setpoints, Totals};
use types::weight::Weights;

// Row 1.
fn is_good(x: Weights) -> Result<(), Refusal>
    ensures { result ≡ first_of (row1 x ∷ []) }
{
    if x.good {
        Ok(())
    } else {
        Err(Refusal::BadTick)
    }
}

// Rows 1 and 2.
fn is_fit(x: Weights) -> Result<(), Refusal>
    ensures { result ≡ first_of (row1 x ∷ row2 x ∷ []) }
{
    is_good(x)?;
    if x.overload {
        Err(Refusal::Overload)
    } else {
        Ok(())
    }
}

// Row 3.
fn is_idle(q: Sequence) -> Result<(), Refusal>
    ensures { result ≡ first_of (row3 q ∷ []) }
{
    if batch::sequence::is_idle(q.stage) {
        Ok(())
    } else {
        Err(Refusal::NotIdle)
    }
}

// Rows 1, 2 and 3.
fn is_ready(q: Sequence, x: Weights) -> Result<(), Refusal>
    ensures { result ≡ first_of (row1 x ∷ row2 x ∷ row3 q ∷ []) }
{
    is_fit(x)?;
    is_idle(q)
}

// Rows 1, 2, 3, 8, 4 and 5, of zero and tare. `barred` is the test of row 8, which is to zero only; `inside` is the test of the request's
// own rule.
fn is_still(q: Sequence, x: Weights, barred: bool, inside: bool) -> Result<(), Refusal>
    ensures { result ≡ first_of (row1 x ∷ row2 x ∷ row3 q ∷ row8 barred ∷ row4 x ∷ row5 inside ∷ []) }
{
    is_ready(q, x)?;
    if barred {
        return Err(Refusal::ContactClosed);
    }
    if !x.stable {
        return Err(Refusal::Unstable);
    }
    if inside {
        Ok(())
    } else {
        Err(Refusal::OutsideRules)
    }
}

// Row 6.
fn keeps_rules(mode: Mode, p: Setpoints) -> Result<(), Refusal>
    ensures { result ≡ first_of (row6 (setpoints_fit mode p) ∷ []) }
{
    if setpoints::setpoints_fit(mode, p) {
        Ok(())
    } else {
        Err(Refusal::SetpointRules)
    }
}

// Row 7.
fn has_back(t: Totals) -> Result<(), Refusal>
    ensures { result ≡ first_of (row7 t ∷ []) }
{
    if totals::has_none_back(t) {
        Err(Refusal::NothingToTakeBack)
    } else {
        Ok(())
    }
}

// Row 9.
fn is_batching(mode: Mode) -> Result<(), Refusal>
    ensures { result ≡ first_of (row9 mode ∷ []) }
{
    match mode {
        Mode::Normal => Ok(()),
        Mode::Loss => Err(Refusal::LossInWeight),
    }
}

// The table, turned: the rows that each request can meet, in the order in which they are tested, and the first that applies.
pub fn ruling(
    range: Range,
    mode: Mode,
    q: Sequence,
    t: Totals,
    x: Weights,
    r: Option<Request>,
) -> Result<(), Refusal>
    ensures { result ≡ first_of (rows_to range mode q t x r) }
{
    let Some(request) = r else {
        return Ok(());
    };
    match request {
        Request::Zero => is_still(q, x, x.contact, zero::in_zero_range(range, x.raw)),
        Request::Tare => is_still(q, x, false, zero::in_tare_range(range, x.divisions)),
        Request::TareClear => is_idle(q),
        Request::Start => is_ready(q, x),
        Request::Stop => Ok(()),
        Request::Set(p) => keeps_rules(mode, p),
        Request::TotalClear => Ok(()),
        Request::Undo => has_back(t),
        Request::ShowGross => Ok(()),
        Request::ShowNet => Ok(()),
        Request::DayClose => is_good(x),
        Request::Discharge => is_ready(q, x).and(is_batching(mode)),
    }
}

// The request that is done: none where it is refused.
pub fn granted(o: Result<(), Refusal>, r: Option<Request>) -> Option<Request>
    ensures { result ≡ grant_of o r }
{
    if o.is_ok() { r } else { None }
}
