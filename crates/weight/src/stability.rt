// Stability: its own small state, and its step.
ghost use Rattle.std.specs.Prelude.{◌≡◌, Some};
ghost use Rattle.outline.specs.Weight.{stable_of, steadied_of};

use types::settings::Steadiness;
use types::weight::Stability;

// Stable when the run is k.
pub(crate) fn is_stable(rule: Steadiness, q: Stability) -> bool
    ensures { result ≡ stable_of rule q }
{
    q.run == rule.time
}

// The run after a good tick.
fn run_after(rule: Steadiness, q: Stability, last: i32, raw: i32) -> u16
    ensures { result ≡ (steadied_of rule q last (Some raw)).run }
{
    let change = whole::magnitude(whole::difference(raw, last));
    if q.good {
        if change <= 10 * (rule.width as u64) {
            if q.run < rule.time {
                return q.run + 1;
            }
            return rule.time;
        }
    }
    0
}

// The step; `last` is the last good raw before this tick.
pub fn steadied(rule: Steadiness, q: Stability, last: i32, raw: Option<i32>) -> Stability
    ensures { result ≡ steadied_of rule q last raw }
{
    match raw {
        None => Stability {
            good: false,
            run: 0,
        },
        Some(t) => Stability {
            good: true,
            run: run_after(rule, q, last, t),
        },
    }
}
