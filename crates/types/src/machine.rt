// The controller's state, a tick's input and its answer.
use crate::analog::Analog;
use crate::daybook::Book;
use crate::requests::{Refusal, Request};
use crate::stages::{Gates, Judgement, Sequence, SequenceError, Setpoints, Stage, Totals};
use crate::weight::{Panel, Stability, Weighing};

#[derive(Clone, Copy)]
pub struct State {
    pub book: Book,
    pub stability: Stability,
    pub weighing: Weighing,
    pub panel: Panel,
    // in use
    pub setpoints: Setpoints,
    // Request A5: written while a batch or a discharge ran, and in use once its stage is 00 again
    pub waiting: Option<Setpoints>,
    pub sequence: Sequence,
    pub totals: Totals,
}

#[derive(Clone, Copy)]
pub struct Input {
    pub count: i32,
    // the refill contact is closed
    pub contact: bool,
    pub request: Option<Request>,
}

// Step 4: how the request is settled, and the state after it.
#[derive(Clone, Copy)]
pub struct Settled {
    pub outcome: Result<(), Refusal>,
    pub state: State,
    // step 6 is passed over
    pub held: bool,
    // an accepted zero
    pub keyed: bool,
    // the day that an accepted day close ended, as step 2 left it: its closing raw is `last`
    pub closed: Option<Book>,
}

#[derive(Clone, Copy)]
pub struct Reading {
    pub good: bool,
    pub overload: bool,
    pub stable: bool,
    pub gross: i32,
    pub net: i32,
}

// Every output of a tick.
#[derive(Clone, Copy)]
pub struct Answer {
    pub outcome: Result<(), Refusal>,
    pub reading: Reading,
    pub stage: Stage,
    pub gates: Gates,
    pub judgement: Judgement,
    pub error: SequenceError,
    // the near-zero and the full output
    pub near: bool,
    pub full: bool,
    pub analog: Option<Analog>,
    // the day that an accepted day close ended, as step 2 left it: its closing raw is `last`
    pub closed: Option<Book>,
}

#[derive(Clone, Copy)]
pub struct Ticked {
    pub state: State,
    pub answer: Answer,
}

// Why a block is not run: it is longer than 4,096 counts.
#[derive(Clone, Copy)]
pub enum BlockRefusal {
    TooLong,
}

#[derive(Clone, Copy)]
pub struct Blocked {
    pub answer: Result<(), BlockRefusal>,
    pub state: State,
}
