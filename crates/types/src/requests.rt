// What a tick may be asked, and how it is answered.
use crate::stages::Setpoints;

#[derive(Clone, Copy)]
pub enum Request {
    Zero,
    Tare,
    TareClear,
    Start,
    Stop,
    Set(Setpoints),
    TotalClear,
    Undo,
    ShowGross,
    ShowNet,
    DayClose,
    Discharge,
}

// The outline's refusals 1 to 7, 8 of request A6, and 9 of request A1.
#[derive(Clone, Copy)]
pub enum Refusal {
    BadTick,
    Overload,
    NotIdle,
    Unstable,
    OutsideRules,
    SetpointRules,
    NothingToTakeBack,
    ContactClosed,
    LossInWeight,
}
