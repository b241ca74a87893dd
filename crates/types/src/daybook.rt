// The day book, in tenths of a division.

// Its narrow fields stand last: a gap between fields is copied with them, wherever a book is.
#[derive(Clone, Copy)]
pub struct Book {
    pub opening: i32,
    // the last good raw
    pub last: i32,
    pub refilled: i64,
    pub used: i64,
    pub unbooked: i64,
    // the day's ticks, up to the last that is booked
    pub ticks: u32,
    // there has been a good tick
    pub begun: bool,
    // the refill contact was closed at the last good tick
    pub contact: bool,
}
