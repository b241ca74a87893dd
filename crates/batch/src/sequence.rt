// The sequence at rest and between stages: how it opens, starts, discharges, stops and fails, and whether it is under way.
ghost use Rattle.std.specs.Prelude.{◌≡◌};
ghost use Rattle.types.specs.declared.stages.SequenceError.{SequenceError};
ghost use Rattle.types.specs.declared.stages.Judgement.{Judgement};
ghost use Rattle.outline.specs.Stages.{open_sequence, idle_of, failed_of, start_sequence, discharge_sequence, stop_error, stop_sequence};

use crate::discharge::is_discharging;
use types::stages::{Judgement, Sequence, SequenceError, Stage};

// A sequence that enters the stage, with no error and no judgement.
fn fresh(stage: Stage) -> Sequence
    ensures { result ≡ (record { stage = stage; clock = 0; error = SequenceError.None; judgement = Judgement.None }) }
{
    Sequence {
        stage,
        clock: 0,
        error: SequenceError::None,
        judgement: Judgement::None,
    }
}

// The sequence of an opening.
pub fn open_sequence() -> Sequence
    ensures { result ≡ open_sequence }
{
    fresh(Stage::Idle)
}

// An accepted start.
pub fn start_sequence() -> Sequence
    ensures { result ≡ start_sequence }
{
    fresh(Stage::StartDelay(0))
}

// An accepted discharge: no error, and the judgement stays.
pub fn discharge_sequence(q: Sequence) -> Sequence
    ensures { result ≡ discharge_sequence q }
{
    let mut begun = fresh(Stage::DischargeStart(0));
    begun.judgement = q.judgement;
    begun
}

// Stage 00.
pub fn is_idle(stage: Stage) -> bool
    ensures { result ≡ idle_of stage }
{
    matches!(stage, Stage::Idle)
}

// An error: to 00.
pub(crate) fn failed(q: Sequence, e: SequenceError) -> Sequence
    ensures { result ≡ failed_of q e }
{
    Sequence {
        stage: Stage::Idle,
        clock: 0,
        error: e,
        judgement: q.judgement,
    }
}

// The error of a stop: 7 in 14 to 16, and else 4. It is not asked for in 00, where a stop changes nothing.
fn stop_error(stage: Stage) -> SequenceError
    ensures { result ≡ stop_error stage }
{
    if is_discharging(stage) {
        return SequenceError::DischargeStopped;
    }
    SequenceError::Stopped
}

// A stop: an error in 03 to 11 and in 14 to 16, nothing in 00.
pub fn stop_sequence(q: Sequence) -> Sequence
    ensures { result ≡ stop_sequence q }
{
    if is_idle(q.stage) {
        return q;
    }
    failed(q, stop_error(q.stage))
}
