// The opening: 10 and no state, or accepted settings and the state that goes with them.
ghost use Rattle.std.specs.Prelude.{◌≡◌};
ghost use Rattle.outline.specs.Settings.{open_of};
ghost use Rattle.outline.specs.Tick.{open_state};
ghost use Rattle.outline.specs.Numbers.{opening_number};
ghost use Rattle.outline.specs.Answers.{opening_due};

use types::machine::State;
use types::settings::{Given, Settings};
use types::weight::{Display, Panel, Stability, Weighing};

#[tactic(auto, using(outline::proofs::AnswerLaws::opening_number_lem))]
pub fn open(g: Given) -> Option<Settings>
    ensures opened { result ≡ open_of g }
    ensures number { opening_number result ≡ opening_due g }
{
    settings::open(g)
}

// The opening state. It takes settings that an opening accepted, so that a 10 leaves nothing to make a state from; it is the same for all.
#[tactic(auto, unfolding(outline::specs::Tick::open_state))]
pub fn open_state(_accepted: Settings) -> State
    ensures { result ≡ open_state }
{
    State {
        book: daybook::open_book(),
        stability: Stability {
            good: false,
            run: 0,
        },
        weighing: Weighing {
            zero: 0,
            tracked: 0,
            tare: 0,
            counter: 0,
        },
        panel: Panel {
            display: Display::Gross,
        },
        setpoints: setpoints::open_setpoints(),
        waiting: None,
        sequence: batch::sequence::open_sequence(),
        totals: totals::clear_totals(),
    }
}
