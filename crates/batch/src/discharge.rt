// Request A1: a discharge, stages 14 to 16, and its step 6 at a tick that error 9 has not ended.
ghost use Rattle.std.specs.Prelude.{◌≡◌, Bool, true, false, ℤ};
ghost use Rattle.outline.specs.Stages.{facts_at, emptying_of, discharging_of, advance_of};

use crate::stages::{fail, to, wait};
use setpoints::levels::is_at_near;
use types::settings::Batching;
use types::stages::{Advanced, Sequence, SequenceError, Setpoints, Stage};

// 14 to 16, a discharge.
pub(crate) fn is_discharging(stage: Stage) -> bool
    ensures { result ≡ discharging_of stage }
{
    matches!(
        stage,
        Stage::DischargeStart(_) | Stage::Discharge | Stage::DischargeEnd(_)
    )
}

// 14, the start delay, in which no clock runs; then 15 and 16. No stage of a discharge asks for v or stability.
pub(crate) fn discharged(b: Batching, p: Setpoints, q: Sequence, gross: i32) -> Advanced
    requires { discharging_of q.stage ≡ true }
    ensures { (s : Bool) (v : ℤ) → result ≡ advance_of b p q (facts_at p false s v gross) }
{
    let stage = q.stage;
    let Stage::DischargeStart(t) = stage else {
        return emptied(b, p, q, gross);
    };
    match wait(b.discharge.start, t) {
        Some(u) => return to(q, 0, Stage::DischargeStart(u)),
        None => return to(q, 0, Stage::Discharge),
    }
}

// 15 and 16, where the discharge's clock runs. It is tested before it grows: at its limit it would pass it in this tick, and error 8 comes.
fn emptied(b: Batching, p: Setpoints, q: Sequence, gross: i32) -> Advanced
    requires { emptying_of q.stage ≡ true }
    ensures { (s : Bool) (v : ℤ) → result ≡ advance_of b p q (facts_at p false s v gross) }
{
    if b.discharge.limit <= q.clock {
        return fail(q, SequenceError::DischargeTime);
    }
    let clock = q.clock + 1;
    let stage = q.stage;
    let Stage::DischargeEnd(t) = stage else {
        // 15, until gross is at most near zero
        if is_at_near(p, gross) {
            return to(q, clock, Stage::DischargeEnd(0));
        }
        return to(q, clock, Stage::Discharge);
    };
    // 16, the end delay; behind it the discharge is over
    match wait(b.discharge.end, t) {
        Some(u) => return to(q, clock, Stage::DischargeEnd(u)),
        None => return to(q, 0, Stage::Idle),
    }
}
