// The outline's number of each answer, stage and error, and the house's of a judgement and of a kind of analog value.
#![tactic(auto)]

ghost use Rattle.std.specs.Prelude.{◌≡◌};
ghost use Rattle.outline.specs.Numbers.{refusal_number, outcome_number, told_number, stage_number, error_number, judgement_number};
ghost use Rattle.outline.specs.Numbers.{analog_number};

use types::analog::Analog;
use types::lines::LineRefusal;
use types::requests::Refusal;
use types::stages::{Judgement, SequenceError, Stage};

// What a call answers where it runs no tick, or where no line was asked. No enum has these: they come of buffers, images and settings as
// they are given, and C asks by a number.
pub const SETTINGS_REFUSED: u8 = 10;

pub const NO_REQUEST: u8 = 13;

pub const SHORT_BUFFER: u8 = 14;

pub const LONG_BLOCK: u8 = 15;

pub const WRONG_LENGTH: u8 = 20;

pub const IMPOSSIBLE: u8 = 21;

pub fn refusal_number(n: Refusal) -> u8
    ensures { result ≡ refusal_number n }
{
    match n {
        Refusal::BadTick => 1,
        Refusal::Overload => 2,
        Refusal::NotIdle => 3,
        Refusal::Unstable => 4,
        Refusal::OutsideRules => 5,
        Refusal::SetpointRules => 6,
        Refusal::NothingToTakeBack => 7,
        Refusal::ContactClosed => 8,
        Refusal::LossInWeight => 9,
    }
}

pub fn outcome_number(o: Result<(), Refusal>) -> u8
    ensures { result ≡ outcome_number o }
{
    match o {
        Ok(()) => 0,
        Err(n) => refusal_number(n),
    }
}

pub fn told_number(t: Result<(), LineRefusal>) -> u8
    ensures { result ≡ told_number t }
{
    let Err(refusal) = t else {
        return 0;
    };
    match refusal {
        LineRefusal::Request(n) => refusal_number(n),
        LineRefusal::Malformed => 11,
        LineRefusal::OtherAddress => 12,
        LineRefusal::Unknown => NO_REQUEST,
        LineRefusal::ShortBuffer => SHORT_BUFFER,
    }
}

pub fn stage_number(stage: Stage) -> u8
    ensures { result ≡ stage_number stage }
{
    match stage {
        Stage::Idle => 0,
        Stage::StartDelay(_) => 3,
        Stage::LargeDisable(_) => 4,
        Stage::LargeFlow => 5,
        Stage::MediumDisable(_) => 6,
        Stage::MediumFlow => 7,
        Stage::SmallDisable(_) => 8,
        Stage::SmallFlow => 9,
        Stage::JudgeDelay(_) => 10,
        Stage::JudgeWait => 11,
        Stage::DischargeStart(_) => 14,
        Stage::Discharge => 15,
        Stage::DischargeEnd(_) => 16,
    }
}

pub fn error_number(e: SequenceError) -> u8
    ensures { result ≡ error_number e }
{
    match e {
        SequenceError::None => 0,
        SequenceError::NoFinal => 1,
        SequenceError::Reached => 2,
        SequenceError::Stopped => 4,
        SequenceError::FlowTime => 6,
        SequenceError::BadWeight => 9,
        SequenceError::NotBooked => 10,
        SequenceError::DischargeStopped => 7,
        SequenceError::DischargeTime => 8,
    }
}

// The numbers of a judgement are the house's.
pub fn judgement_number(j: Judgement) -> u8
    ensures { result ≡ judgement_number j }
{
    match j {
        Judgement::None => 0,
        Judgement::Ok => 1,
        Judgement::Over => 2,
        Judgement::Under => 3,
    }
}

// So are those of a kind of analog value, the settings' own for the board.
pub fn analog_number(a: Option<Analog>) -> u8
    ensures { result ≡ analog_number a }
{
    match a {
        None => 0,
        Some(Analog::Current(_)) => 1,
        Some(Analog::Voltage(_)) => 2,
    }
}
