// Every output of a tick, from the weights that serve it and from the state after step 6.
ghost use Rattle.std.specs.Prelude.{◌≡◌};
ghost use Rattle.outline.specs.Tick.{reading_of, outputs_of};
ghost use Rattle.outline.specs.Steps.{answered_of};

use types::daybook::Book;
use types::machine::{Answer, Reading, State};
use types::requests::Refusal;
use types::settings::Settings;
use types::weight::Weights;

pub fn reading(x: Weights) -> Reading
    ensures { result ≡ reading_of x }
{
    Reading {
        good: x.good,
        overload: x.overload,
        stable: x.stable,
        gross: x.gross,
        net: x.net,
    }
}

// Every output; `st` is the state after step 6, which leaves the display as step 4 did.
#[tactic(auto, unfolding(outline::specs::Tick::outputs_of))]
pub fn outputs(
    s: Settings,
    outcome: Result<(), Refusal>,
    closed: Option<Book>,
    x: Weights,
    st: State,
) -> Answer
    ensures { result ≡ outputs_of s (answered_of outcome closed st) x st }
{
    let shown = weight::displayed(st.panel.display, x);
    Answer {
        outcome,
        reading: reading(x),
        stage: st.sequence.stage,
        gates: batch::gates::open_gates(st.setpoints, st.sequence.stage),
        judgement: st.sequence.judgement,
        error: st.sequence.error,
        near: setpoints::levels::is_near(st.setpoints, x),
        full: setpoints::levels::is_full(s.batching.mode, st.setpoints, x),
        analog: analog::analog_value(s.board, s.scale, shown, weight::is_fit(x)),
        closed,
    }
}
