// From count to weight, and the zero that it is taken from.

// Whether the tick before was good, and the run of steady ticks. The raw of that tick is the day book's last good raw.
#[derive(Clone, Copy)]
pub struct Stability {
    pub good: bool,
    pub run: u16,
}

// The zero in force and what tracking moved it by, in tenths; the tare, in display digits; the tracking counter. The narrow field stands
// last, so that no gap between fields is copied with each tick.
#[derive(Clone, Copy)]
pub struct Weighing {
    pub zero: i32,
    pub tracked: i32,
    pub tare: i32,
    pub counter: u16,
}

// The weight that is displayed.
#[derive(Clone, Copy)]
pub enum Display {
    Gross,
    Net,
}

// What the front panel shows.
#[derive(Clone, Copy)]
pub struct Panel {
    pub display: Display,
}

// What a tick weighs, worked out in step 3 and again after step 4. The tick's refill contact stands beside it, since a zero and tracking
// ask for it.
#[derive(Clone, Copy)]
pub struct Weights {
    pub good: bool,
    pub contact: bool,
    // raw and gross fine, in tenths
    pub raw: i32,
    pub fine: i64,
    // gross, in divisions and in display digits; net
    pub divisions: i64,
    pub gross: i32,
    pub net: i32,
    pub overload: bool,
    pub stable: bool,
}
