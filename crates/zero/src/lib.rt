// Zero and tare: when each is accepted, and what it does. Raw is in tenths, gross and tare in display digits.
#![tactic(auto)]

ghost use Rattle.std.specs.Prelude.{◌≡◌};
ghost use Rattle.outline.specs.Zero.{in_zero_range, zeroed_of, in_tare_range, tared_of};

use types::settings::Range;
use types::weight::Weighing;

pub mod tracking;

// 10·|raw| is at most C·p.
pub fn in_zero_range(r: Range, raw: i32) -> bool
    ensures { result ≡ in_zero_range r raw }
{
    10 * whole::magnitude(raw as i64) <= (r.capacity as u64) * (r.zeroing as u64)
}

// Gross divisions lie in 0..C.
pub fn in_tare_range(r: Range, divisions: i64) -> bool
    ensures { result ≡ in_tare_range r divisions }
{
    0 <= divisions && divisions <= r.capacity as i64
}

// The zero in force becomes raw.
pub fn zeroed(mut w: Weighing, raw: i32) -> Weighing
    ensures { result ≡ zeroed_of w raw }
{
    w.zero = raw;
    w.tracked = 0;
    w
}

// The tare becomes gross, or 0 where it is cleared.
pub fn tared(mut w: Weighing, gross: i32) -> Weighing
    ensures { result ≡ tared_of w gross }
{
    w.tare = gross;
    w
}
