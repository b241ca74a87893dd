// A log: a line for each tick, as the programs read it.

// A whole number in a line, and the place behind it.
#[derive(Clone, Copy)]
pub struct LogNumber {
    pub value: i32,
    pub end: usize,
}

// What a line says: its count and contact, and the place where its request begins.
#[derive(Clone, Copy)]
pub struct LogLine {
    pub count: i32,
    pub contact: bool,
    pub request: usize,
}

// A line of an input of which a buffer holds a piece: its place there, and what it says.
#[derive(Clone, Copy)]
pub struct Line {
    // the line's bytes, without its LF
    pub from: usize,
    pub end: usize,
    // the bytes held, up to the last that was read
    pub all: usize,
    // the first line is 1
    pub number: u64,
    // there is such a line; else the bytes held have ended
    pub here: bool,
    // its LF is held too
    pub whole: bool,
    // nothing where it can't be read
    pub said: Option<LogLine>,
}
