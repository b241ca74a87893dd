// What has a name in a state, as a number and back: total, so a number that names nothing reads as the first name.
// `state::bytes_refusal` finds it out: the name's own number is another. So a reader is no TryFrom, which would refuse it.
ghost use Rattle.std.specs.Prelude.{◌≡◌};
ghost use Rattle.images.specs.StateImage.{display_number, display_of, stage_of, stage_timer, error_of, judgement_of};

use types::stages::{Judgement, SequenceError, Stage};
use types::weight::Display;

#[tactic(auto, unfolding(crate::specs::StateImage::display_number))]
pub(crate) fn display_number(d: Display) -> u8
    ensures { result ≡ display_number d }
{
    match d {
        Display::Gross => 0,
        Display::Net => 1,
    }
}

#[tactic(auto, unfolding(crate::specs::StateImage::display_of))]
pub(crate) fn display_of(n: u8) -> Display
    ensures { result ≡ display_of n }
{
    match n {
        1 => Display::Net,
        _ => Display::Gross,
    }
}

// A stage by the outline's number, with the ticks that a timed one has lasted.
#[tactic(auto, unfolding(crate::specs::StateImage::stage_of))]
pub(crate) fn stage_of(n: u8, timer: u16) -> Stage
    ensures { result ≡ stage_of n timer }
{
    match n {
        3 => Stage::StartDelay(timer),
        4 => Stage::LargeDisable(timer),
        5 => Stage::LargeFlow,
        6 => Stage::MediumDisable(timer),
        7 => Stage::MediumFlow,
        8 => Stage::SmallDisable(timer),
        9 => Stage::SmallFlow,
        10 => Stage::JudgeDelay(timer),
        11 => Stage::JudgeWait,
        14 => Stage::DischargeStart(timer),
        15 => Stage::Discharge,
        16 => Stage::DischargeEnd(timer),
        _ => Stage::Idle,
    }
}

// The ticks that a timed stage has lasted; 0 for any other.
#[tactic(auto, unfolding(crate::specs::StateImage::stage_timer))]
pub(crate) fn stage_timer(stage: Stage) -> u16
    ensures { result ≡ stage_timer stage }
{
    match stage {
        Stage::StartDelay(t)
        | Stage::LargeDisable(t)
        | Stage::MediumDisable(t)
        | Stage::SmallDisable(t)
        | Stage::JudgeDelay(t)
        | Stage::DischargeStart(t)
        | Stage::DischargeEnd(t) => t,
        _ => 0,
    }
}

#[tactic(auto, unfolding(crate::specs::StateImage::error_of))]
pub(crate) fn error_of(n: u8) -> SequenceError
    ensures { result ≡ error_of n }
{
    match n {
        1 => SequenceError::NoFinal,
        2 => SequenceError::Reached,
        4 => SequenceError::Stopped,
        6 => SequenceError::FlowTime,
        7 => SequenceError::DischargeStopped,
        8 => SequenceError::DischargeTime,
        9 => SequenceError::BadWeight,
        10 => SequenceError::NotBooked,
        _ => SequenceError::None,
    }
}

#[tactic(auto, unfolding(crate::specs::StateImage::judgement_of))]
pub(crate) fn judgement_of(n: u8) -> Judgement
    ensures { result ≡ judgement_of n }
{
    match n {
        1 => Judgement::Ok,
        2 => Judgement::Over,
        3 => Judgement::Under,
        _ => Judgement::None,
    }
}
