// The analog value: f64, each operation rounded once, in the outline's order.
#![tactic(auto)]

ghost use Rattle.std.specs.Prelude.{◌≡◌};
ghost use Rattle.outline.specs.Analog.{scale_of, between_of, clip_of, analog_of};
ghost use Rattle.outline.specs.Numbers.{analog_number, analog_values};
ghost use Rattle.outline.specs.Answers.{analog_due, analog_values_due};
ghost use Rattle.analog.specs.Fitted.{fitted};

use types::analog::{Analog, Board, Scale};

// The low end and D = high - low, made once when settings are accepted.
pub fn scale_of(low: i32, high: i32) -> Scale
    ensures { result ≡ scale_of low high }
{
    let l = low as f64;
    let h = high as f64;
    Scale {
        low: l,
        span: h - l,
    }
}

// x, or the end that it lies beyond.
fn between(least: f64, most: f64, x: f64) -> f64
    ensures { result ≡ between_of least most x }
{
    if x < least {
        return least;
    }
    if most < x {
        return most;
    }
    x
}

// x clipped to lie between 0 and d, which is below 0 where high is below low.
fn clipped(x: f64, d: f64) -> f64
    ensures { result ≡ clip_of x d }
{
    if d < 0.0 {
        return between(d, 0.0, x);
    }
    between(0.0, d, x)
}

// What the board is given; `fit` is a good tick without overload.
pub fn analog_value(board: Option<Board>, scale: Scale, displayed: i32, fit: bool) -> Option<Analog>
    ensures value { result ≡ analog_of board scale displayed fit }
    ensures number { analog_number result ≡ analog_due board fit }
    ensures values { analog_values result ≡ analog_values_due board scale displayed fit }
{
    if !fit {
        return None;
    }
    // Without a board nothing is worked out.
    let board = board?;
    let w = displayed as f64;
    let d = scale.span;
    let x = clipped(w - scale.low, d);
    match board {
        Board::Current => Some(Analog::Current(16.0 * x / d + 4.0)),
        Board::Voltage => Some(Analog::Voltage(10.0 * x / d + 0.0)),
    }
}
