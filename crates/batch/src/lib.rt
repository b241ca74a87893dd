// Step 6: what a batch or a discharge does at a tick. Error 9 comes first, in every stage; then the clock and the stage, which stand in
// `stages` for a batch and in `discharge` for a discharge.
#![tactic(auto)]

ghost use Rattle.std.specs.Prelude.{◌≡◌};
ghost use Rattle.outline.specs.Stages.{facts_at, advance_of};

use crate::discharge::{discharged, is_discharging};
use crate::sequence::is_idle;
use crate::stages::{batched, fail};
use types::settings::Batching;
use types::stages::{Advanced, Sequence, SequenceError, Setpoints};

pub mod comparison;
mod discharge;
pub mod gates;
pub mod sequence;
mod stages;

// `unfit` is a bad or overloaded tick, v the compared weight; gross is in display digits, as v. What every stage asks stands before what
// one asks: the first six values of a call pass in registers.
pub fn advance(
    b: Batching,
    p: Setpoints,
    q: Sequence,
    unfit: bool,
    v: i64,
    stable: bool,
    gross: i32,
) -> Advanced
    ensures { result ≡ advance_of b p q (facts_at p unfit stable v gross) }
{
    let stage = q.stage;
    if is_idle(stage) {
        return Advanced {
            sequence: q,
            finished: false,
        };
    }
    if unfit {
        return fail(q, SequenceError::BadWeight);
    }
    if is_discharging(stage) {
        return discharged(b, p, q, gross);
    }
    batched(b, p, q, v, stable)
}
