// Serial lines: what a receive buffer holds, what a line asks for, what is replied.
use crate::machine::{Answer, State};
use crate::requests::Refusal;
use crate::stages::Setpoints;

// Why a buffer has no end of a line: no CR LF stands in it, or the first one stands after more than 64 bytes.
#[derive(Clone, Copy)]
pub enum NoEnd {
    Missing,
    Beyond,
}

// The second answer: no line, a long line, an empty line and another.
#[derive(Clone, Copy)]
pub enum LineKind {
    NoLine,
    Long,
    Empty,
    Text,
}

// A command of two letters alone.
#[derive(Clone, Copy)]
pub enum Word {
    ReadWeight,
    ReadTotal,
    ReadSetpoints,
    Zero,
    Tare,
    TareClear,
    ShowGross,
    ShowNet,
    Start,
    Stop,
    TotalClear,
    Undo,
    DayClose,
    Discharge,
}

// What a pair of letters names: a command that stands alone, or SS.
#[derive(Clone, Copy)]
pub enum Letters {
    One(Word),
    Set,
}

// What a receive buffer asks for.
#[derive(Clone, Copy)]
pub enum Order {
    Do(Word),
    Set(Setpoints),
}

// Why a receive buffer asks for nothing.
#[derive(Clone, Copy)]
pub enum LineFault {
    NoLine,
    LongLine,
    OtherAddress,
    Malformed,
    Unknown,
}

// The weight as RW shows it.
#[derive(Clone, Copy)]
pub struct Shown {
    // good and not overloaded: ST or US and digits, else OL and spaces
    pub fit: bool,
    pub stable: bool,
    pub net: bool,
    pub negative: bool,
    pub amount: u64,
}

// What stands between prefix and CR LF.
#[derive(Clone, Copy)]
pub enum Reply {
    Letters(u16),
    Weight(Shown),
    Total(u64, u32),
    Points(Setpoints),
    Refused(u8),
}

// Why a line is refused: its request is, with 1 to 9, or the line itself, with 11 to 14.
#[derive(Clone, Copy)]
pub enum LineRefusal {
    Request(Refusal),
    Malformed,
    OtherAddress,
    Unknown,
    ShortBuffer,
}

// A tick with a line: the line's answer, the reply's length, the tick's outputs, the next state. After 11 to 14 the outputs are those
// of a tick without a request, whose own outcome is 0.
#[derive(Clone, Copy)]
pub struct LineTick {
    pub told: Result<(), LineRefusal>,
    pub length: usize,
    pub answer: Answer,
    pub state: State,
}
