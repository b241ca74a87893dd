// The weight as RW shows it, from the tick's reading.
ghost use Rattle.std.specs.Prelude.{◌≡◌, cond, ◌&&◌, pos};
ghost use Rattle.std.specs.Int.Signed.{lt_z};
ghost use Rattle.outline.specs.Replies.{shows_net, is_fit, shown_weight, shown_of};

use types::lines::Shown;
use types::machine::Reading;
use types::weight::Display;

fn shows_net(d: Display) -> bool
    ensures { result ≡ shows_net d }
{
    matches!(d, Display::Net)
}

// The weight crate asks the same of Weights. A trait over both needs four methods for each, more than these two bodies.
fn is_fit(x: Reading) -> bool
    ensures { result ≡ is_fit x }
{
    x.good && !x.overload
}

fn shown_weight(d: Display, x: Reading) -> i32
    ensures { result ≡ shown_weight d x }
{
    match d {
        Display::Gross => x.gross,
        Display::Net => x.net,
    }
}

// Whether minus stands before the digits, so plus for 0. Without digits it says on which side the overload is; a bad tick has none.
fn is_minus(fit: bool, shown: i32, x: Reading) -> bool
    ensures { result ≡ cond fit (lt_z shown (pos 0)) (x.overload && lt_z x.gross (pos 0)) }
{
    if fit {
        return shown < 0;
    }
    x.overload && x.gross < 0
}

#[tactic(auto, unfolding(outline::specs::Replies::shown_of))]
pub(crate) fn shown_of(d: Display, x: Reading) -> Shown
    ensures { result ≡ shown_of d x }
{
    let fit = is_fit(x);
    let shown = shown_weight(d, x);
    Shown {
        fit,
        stable: x.stable,
        net: shows_net(d),
        negative: is_minus(fit, shown, x),
        amount: u64::from(shown.unsigned_abs()),
    }
}
