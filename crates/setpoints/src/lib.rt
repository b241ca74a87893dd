// The setpoint rules.
#![tactic(auto)]

ghost use Rattle.std.specs.Prelude.{◌≡◌};
ghost use Rattle.outline.specs.Setpoints.{open_setpoints, seven_fit, preliminary_fits, optional_fits, setpoints_fit, no_large_flow};

use types::settings::Mode;
use types::stages::Setpoints;

pub mod levels;
pub mod waiting;

// Each of the seven, in display digits.
const SETPOINT_LIMIT: u32 = 999_999;

// The setpoints of an opening.
pub fn open_setpoints() -> Setpoints
    ensures { result ≡ open_setpoints }
{
    Setpoints {
        target: 0,
        fall: 0,
        preliminary: 0,
        optional: 0,
        over: 0,
        under: 0,
        near: 0,
    }
}

// Every one within its limit.
fn is_seven(p: Setpoints) -> bool
    ensures { result ≡ seven_fit p }
{
    if p.target > SETPOINT_LIMIT {
        return false;
    }
    if p.fall > SETPOINT_LIMIT {
        return false;
    }
    if p.preliminary > SETPOINT_LIMIT {
        return false;
    }
    if p.optional > SETPOINT_LIMIT {
        return false;
    }
    if p.over > SETPOINT_LIMIT {
        return false;
    }
    if p.under > SETPOINT_LIMIT {
        return false;
    }
    p.near <= SETPOINT_LIMIT
}

// P is 0, or more than FF and at most F.
fn preliminary_fits(p: Setpoints) -> bool
    ensures { result ≡ preliminary_fits p }
{
    if p.preliminary == 0 {
        return true;
    }
    if p.preliminary <= p.fall {
        return false;
    }
    p.preliminary <= p.target
}

// In mode 1, OP is 0, or more than FF and P and at most F.
fn optional_fits(m: Mode, p: Setpoints) -> bool
    ensures { result ≡ optional_fits m p }
{
    match m {
        Mode::Normal => {
            if p.optional == 0 {
                return true;
            }
            if p.optional <= p.fall {
                return false;
            }
            if p.optional <= p.preliminary {
                return false;
            }
            p.optional <= p.target
        }
        Mode::Loss => true,
    }
}

// The setpoint rules.
pub fn setpoints_fit(m: Mode, p: Setpoints) -> bool
    ensures { result ≡ setpoints_fit m p }
{
    if !is_seven(p) {
        return false;
    }
    if p.fall > p.target {
        return false;
    }
    if !preliminary_fits(p) {
        return false;
    }
    optional_fits(m, p)
}

// There is no large flow if OP is 0 or in mode 2.
pub fn has_no_large(m: Mode, p: Setpoints) -> bool
    ensures { result ≡ no_large_flow m p }
{
    match m {
        Mode::Normal => p.optional == 0,
        Mode::Loss => true,
    }
}
