// From raw to weight. Raw and gross fine are in tenths, gross, net and tare in display digits.
#![tactic(auto)]

ghost use Rattle.std.specs.Prelude.{◌≡◌, Some};
ghost use Rattle.outline.specs.Weight.{overload_of, kept_of, weigh_of, displayed_of, fit_of};

use crate::stability::is_stable;
use types::settings::{Range, Settings};
use types::weight::{Display, Stability, Weighing, Weights};

pub mod raw;
pub mod stability;

// Overload is beyond the capacity and so many divisions.
const OVERLOAD_MARGIN: u64 = 8;

// Gross and net stop at what an i32 holds.
const DISPLAY_LIMIT: u64 = 2_147_483_647;

// A weight within it, on either side of zero, needs no stop, and a machine tests both ends at once.
const DISPLAY_PLAIN: i64 = 1_073_741_824;

fn is_overloaded(r: Range, divisions: i64) -> bool
    ensures { result ≡ overload_of r divisions }
{
    (r.capacity as u64) + OVERLOAD_MARGIN < whole::magnitude(divisions)
}

fn kept(x: i64) -> i32
    ensures { result ≡ kept_of x }
{
    if 0 - DISPLAY_PLAIN <= x && x < DISPLAY_PLAIN {
        return x as i32;
    }
    whole::limited(x, DISPLAY_LIMIT) as i32
}

// The weights of a good tick.
fn weigh_good(s: Settings, q: Stability, w: Weighing, raw: i32, contact: bool) -> Weights
    ensures { result ≡ weigh_of s q w (Some raw) contact }
{
    let fine = whole::difference(raw, w.zero);
    let divisions = whole::nearest(fine, 10);
    let range = s.range;
    let gross = kept(divisions * (range.division as i64));
    let net = kept(whole::difference(gross, w.tare));
    let overload = is_overloaded(range, divisions);
    let rule = s.steadiness;
    let stable = is_stable(rule, q);
    Weights {
        good: true,
        contact,
        raw,
        fine,
        divisions,
        gross,
        net,
        overload,
        stable,
    }
}

// What a tick weighs.
pub fn weigh(s: Settings, q: Stability, w: Weighing, raw: Option<i32>, contact: bool) -> Weights
    ensures { result ≡ weigh_of s q w raw contact }
{
    match raw {
        None => {
            let rule = s.steadiness;
            let stable = is_stable(rule, q);
            Weights {
                good: false,
                contact,
                raw: 0,
                fine: 0,
                divisions: 0,
                gross: 0,
                net: 0,
                overload: false,
                stable,
            }
        }
        Some(t) => weigh_good(s, q, w, t, contact),
    }
}

// A good tick without overload.
pub fn is_fit(x: Weights) -> bool
    ensures { result ≡ fit_of x }
{
    x.good && !x.overload
}

// The displayed weight.
pub fn displayed(d: Display, x: Weights) -> i32
    ensures { result ≡ displayed_of d x }
{
    match d {
        Display::Gross => x.gross,
        Display::Net => x.net,
    }
}
