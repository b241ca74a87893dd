// The two level outputs, near zero and full: gross against a setpoint.
ghost use Rattle.std.specs.Prelude.{◌≡◌};
ghost use Rattle.outline.specs.Setpoints.{at_most_near, near_of, full_of};

use types::settings::Mode;
use types::stages::Setpoints;
use types::weight::Weights;
use weight::is_fit;

// Gross is at most near zero: what the near-zero output asks, and a discharge.
pub fn is_at_near(p: Setpoints, gross: i32) -> bool
    ensures { result ≡ at_most_near p gross }
{
    (gross as i64) <= (p.near as i64)
}

// The near-zero output.
pub fn is_near(p: Setpoints, x: Weights) -> bool
    ensures { result ≡ near_of p x }
{
    if !is_fit(x) {
        return false;
    }
    is_at_near(p, x.gross)
}

// The full output: mode 2 and gross above full.
pub fn is_full(m: Mode, p: Setpoints, x: Weights) -> bool
    ensures { result ≡ full_of m p x }
{
    if !is_fit(x) {
        return false;
    }
    match m {
        Mode::Normal => false,
        Mode::Loss => (p.optional as i64) < (x.gross as i64),
    }
}
