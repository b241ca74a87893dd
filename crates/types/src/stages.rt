// Setpoints, the sequence of a batch and of a discharge, and the totals.

// In display digits: final F, free fall FF, preliminary P, optional preliminary OP (mode 2: full), over, under, near zero.
#[derive(Clone, Copy)]
pub struct Setpoints {
    pub target: u32,
    pub fall: u32,
    pub preliminary: u32,
    pub optional: u32,
    pub over: u32,
    pub under: u32,
    pub near: u32,
}

// Stages 00, 03 to 11 of a batch, and 14 to 16 of a discharge. A timed stage holds 0 on entering, and one more after each tick that it
// stays; the paper's number of the stage says nothing of it.
#[derive(Clone, Copy)]
pub enum Stage {
    Idle,
    StartDelay(u16),
    LargeDisable(u16),
    LargeFlow,
    MediumDisable(u16),
    MediumFlow,
    SmallDisable(u16),
    SmallFlow,
    JudgeDelay(u16),
    JudgeWait,
    DischargeStart(u16),
    Discharge,
    DischargeEnd(u16),
}

#[derive(Clone, Copy)]
pub enum Judgement {
    None,
    Ok,
    Over,
    Under,
}

// None; of a batch errors 1, 2, 4, 6, 9 and 10; of a discharge 7, 8 and 9. None is a variant here and in a judgement: with an Option of
// each a sequence is ten bytes and not eight, and a tick's stack was 676 bytes where bench/stack allows 640.
#[derive(Clone, Copy)]
pub enum SequenceError {
    None,
    NoFinal,
    Reached,
    Stopped,
    FlowTime,
    BadWeight,
    NotBooked,
    DischargeStopped,
    DischargeTime,
}

#[derive(Clone, Copy)]
pub struct Sequence {
    pub stage: Stage,
    // the flow clock in 04 to 11, the discharge's in 15 and 16
    pub clock: u16,
    pub error: SequenceError,
    pub judgement: Judgement,
}

#[derive(Clone, Copy)]
pub struct Gates {
    pub large: bool,
    pub medium: bool,
    pub small: bool,
    pub discharge: bool,
}

// What the sequence asks of a tick's weights.
#[derive(Clone, Copy)]
pub struct Facts {
    // bad or overloaded
    pub unfit: bool,
    pub stable: bool,
    // v has reached F - OP, F - P, F - FF
    pub large: bool,
    pub medium: bool,
    pub small: bool,
    // v is above F + over, below F - under
    pub over: bool,
    pub under: bool,
    // gross is at most near zero
    pub empty: bool,
}

// What a stage says at a tick.
#[derive(Clone, Copy)]
pub enum Move {
    To(Stage),
    Fail(SequenceError),
    Finish(Judgement),
    // the end of a discharge
    Emptied,
}

// The sequence after step 6, and whether a batch finished.
#[derive(Clone, Copy)]
pub struct Advanced {
    pub sequence: Sequence,
    pub finished: bool,
}

// Total in display digits, count of batches, and the weight of the batch that undo would take back.
#[derive(Clone, Copy)]
pub struct Totals {
    pub total: u64,
    pub count: u32,
    pub back: Option<u64>,
}
