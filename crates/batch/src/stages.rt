// Step 6 of a batch, stages 03 to 11, at a tick that error 9 has not ended; and what a discharge shares with it.
ghost use Rattle.std.specs.Prelude.{◌≡◌, Bool, true, false, ℤ};
ghost use Rattle.types.specs.declared.stages.Stage.{Stage};
ghost use Rattle.outline.specs.Stages.{facts_at, wait_of, after_large, first_flow, after_start, judged_of, idle_of, flowing_of};
ghost use Rattle.outline.specs.Stages.{discharging_of};
ghost use Rattle.outline.specs.Stages.{clock_of, failed_of, land_of, advance_of};

use crate::comparison::{is_over, is_reached, is_under};
use crate::sequence::failed;
use setpoints::has_no_large;
use types::settings::{Batching, Mode};
use types::stages::{Advanced, Judgement, Sequence, SequenceError, Setpoints, Stage};

// An error ends it.
pub(crate) fn fail(q: Sequence, e: SequenceError) -> Advanced
    ensures { result ≡ (record { sequence = failed_of q e; finished = false }) }
{
    Advanced {
        sequence: failed(q, e),
        finished: false,
    }
}

// It stays in its stage or moves to another, with the clock of this tick.
pub(crate) fn to(q: Sequence, clock: u16, stage: Stage) -> Advanced
    ensures { result
        ≡ (record { sequence = record { stage = stage; clock = clock; error = q.error; judgement = q.judgement }; finished = false }) }
{
    Advanced {
        sequence: Sequence {
            stage,
            clock,
            error: q.error,
            judgement: q.judgement,
        },
        finished: false,
    }
}

// A batch finishes.
fn finish(q: Sequence, judgement: Judgement) -> Advanced
    ensures { result
        ≡ (record { sequence = record { stage = Stage.Idle; clock = 0; error = q.error; judgement = judgement }; finished = true }) }
{
    Advanced {
        sequence: Sequence {
            stage: Stage::Idle,
            clock: 0,
            error: q.error,
            judgement,
        },
        finished: true,
    }
}

// A timed stage of n lasts max(n, 1) ticks: t lie before this one.
pub(crate) fn wait(n: u16, t: u16) -> Option<u16>
    ensures { result ≡ wait_of n t }
{
    if n <= t {
        return None;
    }
    let next = t + 1;
    if n <= next { None } else { Some(next) }
}

// 06, or 08 if P is 0.
fn after_large(p: Setpoints) -> Stage
    ensures { result ≡ after_large p }
{
    if p.preliminary == 0 {
        Stage::SmallDisable(0)
    } else {
        Stage::MediumDisable(0)
    }
}

// The first flow stage.
fn first_flow(m: Mode, p: Setpoints) -> Stage
    ensures { result ≡ first_flow m p }
{
    if has_no_large(m, p) {
        after_large(p)
    } else {
        Stage::LargeDisable(0)
    }
}

// The end of 03, whatever is stable and gross: of the weights it asks v alone.
fn after_start(m: Mode, p: Setpoints, q: Sequence, v: i64) -> Advanced
    requires { clock_of q ≡ 0 }
    ensures { (s : Bool) (x : ℤ) → result ≡ land_of q (after_start m p (facts_at p false s v x)) }
{
    if p.target == 0 {
        return fail(q, SequenceError::NoFinal);
    }
    if is_reached(p, p.fall, v) {
        return fail(q, SequenceError::Reached);
    }
    to(q, 0, first_flow(m, p))
}

// The judgement of a finish, of v alone.
fn judge(p: Setpoints, v: i64) -> Judgement
    ensures { (s : Bool) (x : ℤ) → result ≡ judged_of (facts_at p false s v x) }
{
    if is_over(p, v) {
        return Judgement::Over;
    }
    if is_under(p, v) {
        return Judgement::Under;
    }
    Judgement::Ok
}

// 03, in which no clock runs; then 04 to 11. Gross may be what it will: no stage of a batch asks it.
pub(crate) fn batched(b: Batching, p: Setpoints, q: Sequence, v: i64, stable: bool) -> Advanced
    requires { (idle_of q.stage ≡ false) × (discharging_of q.stage ≡ false) }
    ensures { (x : ℤ) → result ≡ advance_of b p q (facts_at p false stable v x) }
{
    let stage = q.stage;
    let Stage::StartDelay(t) = stage else {
        return flowed(b, p, q, v, stable);
    };
    match wait(b.start, t) {
        Some(u) => return to(q, 0, Stage::StartDelay(u)),
        None => {
            let mode = b.mode;
            return after_start(mode, p, q, v);
        }
    }
}

// 04 to 11, where the flow clock runs. It is tested before it grows: at Q it would pass Q in this tick, and error 6 comes. Each arm
// returns: arms that meet would have the compiler take the sequence apart and put it together again behind them.
fn flowed(b: Batching, p: Setpoints, q: Sequence, v: i64, stable: bool) -> Advanced
    requires { flowing_of q.stage ≡ true }
    ensures { (x : ℤ) → result ≡ advance_of b p q (facts_at p false stable v x) }
{
    if b.flow <= q.clock {
        return fail(q, SequenceError::FlowTime);
    }
    let clock = q.clock + 1;
    let stage = q.stage;
    match stage {
        Stage::LargeDisable(t) => match wait(b.large, t) {
            Some(u) => return to(q, clock, Stage::LargeDisable(u)),
            None => return to(q, clock, Stage::LargeFlow),
        },
        Stage::LargeFlow => {
            if is_reached(p, p.optional, v) {
                return to(q, clock, after_large(p));
            }
            return to(q, clock, Stage::LargeFlow);
        }
        Stage::MediumDisable(t) => match wait(b.medium, t) {
            Some(u) => return to(q, clock, Stage::MediumDisable(u)),
            None => return to(q, clock, Stage::MediumFlow),
        },
        Stage::MediumFlow => {
            if is_reached(p, p.preliminary, v) {
                return to(q, clock, Stage::SmallDisable(0));
            }
            return to(q, clock, Stage::MediumFlow);
        }
        Stage::SmallDisable(t) => match wait(b.small, t) {
            Some(u) => return to(q, clock, Stage::SmallDisable(u)),
            None => return to(q, clock, Stage::SmallFlow),
        },
        Stage::SmallFlow => {
            if is_reached(p, p.fall, v) {
                return to(q, clock, Stage::JudgeDelay(0));
            }
            return to(q, clock, Stage::SmallFlow);
        }
        Stage::JudgeDelay(t) => match wait(b.judge, t) {
            Some(u) => return to(q, clock, Stage::JudgeDelay(u)),
            None => return to(q, clock, Stage::JudgeWait),
        },
        Stage::JudgeWait => {
            if stable {
                return finish(q, judge(p, v));
            }
            return to(q, clock, Stage::JudgeWait);
        }
        // no other stage comes here
        _ => return Advanced {
            sequence: q,
            finished: false,
        },
    }
}
