// Zero tracking, step 5: the counter of calm ticks, and the zero that moves when it is full. Raw and fine weight are in tenths.
ghost use Rattle.std.specs.Prelude.{◌≡◌, ◌≤◌, nat_abs};
ghost use Rattle.outline.specs.Zero.{tracking_on, calm_of, counted_up, tracked_of};

use crate::in_zero_range;
use types::settings::{Settings, Tracking};
use types::weight::{Weighing, Weights};
use weight::is_fit;

fn is_tracking(t: Tracking) -> bool
    ensures { result ≡ tracking_on t }
{
    0 < t.time && 0 < t.width
}

// A tick at which the tracking counter adds one. While the refill contact is closed none does: the weight that comes is no drift.
fn is_calm(t: Tracking, idle: bool, keyed: bool, x: Weights) -> bool
    ensures { result ≡ calm_of t idle keyed x }
{
    if !is_fit(x) {
        return false;
    }
    if !idle {
        return false;
    }
    if keyed {
        return false;
    }
    if x.contact {
        return false;
    }
    whole::magnitude(x.fine) <= (t.width as u64)
}

// A calm tick: the counter adds one; at q it returns to 0, and the zero moves if it may. The fine weight of a calm tick is small.
fn counted_up(s: Settings, mut w: Weighing, x: Weights) -> Weighing
    requires { nat_abs x.fine ≤ 255 }
    ensures { result ≡ counted_up s w x }
{
    let next = (w.counter as u32) + 1;
    if next < (s.tracking.time as u32) {
        w.counter = next as u16;
        return w;
    }
    w.counter = 0;
    if !in_zero_range(s.range, x.raw) {
        return w;
    }
    let moved = (w.tracked as i64) + x.fine;
    if whole::magnitude(moved) <= (s.tracking.allowance as u64) {
        w.zero = x.raw;
        w.tracked = moved as i32;
        return w;
    }
    w
}

// Step 5.
pub fn tracked(s: Settings, idle: bool, keyed: bool, x: Weights, mut w: Weighing) -> Weighing
    ensures { result ≡ tracked_of s idle keyed x w }
{
    if !is_tracking(s.tracking) {
        w.counter = 0;
        return w;
    }
    if is_calm(s.tracking, idle, keyed, x) {
        return counted_up(s, w, x);
    }
    w.counter = 0;
    w
}
