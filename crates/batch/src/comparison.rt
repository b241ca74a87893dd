// The compared weight, and what the stages ask of it.
ghost use Rattle.std.specs.Prelude.{◌≡◌, ◌+◌, pos, ◌-ℤ◌};
ghost use Rattle.std.specs.Int.Signed.{lt_z};
ghost use Rattle.outline.specs.Stages.{compared_of, reached_of};

use types::settings::Mode;
use types::stages::Setpoints;
use types::weight::Weights;

// The compared weight v: net in mode 1, minus net in mode 2.
pub fn compared(m: Mode, x: Weights) -> i64
    ensures { result ≡ compared_of m x }
{
    let net = x.net as i64;
    match m {
        Mode::Normal => net,
        Mode::Loss => 0 - net,
    }
}

// v is at least F less n.
pub(crate) fn is_reached(p: Setpoints, n: u32, v: i64) -> bool
    ensures { result ≡ reached_of p n v }
{
    (p.target as i64) - (n as i64) <= v
}

// v is above F + over.
pub(crate) fn is_over(p: Setpoints, v: i64) -> bool
    ensures { result ≡ lt_z (pos (p.target + p.over)) v }
{
    (p.target as i64) + (p.over as i64) < v
}

// v is below F - under.
pub(crate) fn is_under(p: Setpoints, v: i64) -> bool
    ensures { result ≡ lt_z v (pos p.target -ℤ pos p.under) }
{
    v < (p.target as i64) - (p.under as i64)
}
