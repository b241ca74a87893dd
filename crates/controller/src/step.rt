// Step 6 of a tick.
ghost use Rattle.std.specs.Prelude.{◌≡◌};
ghost use Rattle.outline.specs.Tick.{stepped_of};

use types::machine::State;
use types::settings::Settings;
use types::weight::Weights;

// In stage 00 there is nothing to do. Where the stage returns to 00, what waits is in use after judgement and booking. Drawn into each tick:
// a call of its own would take more stack than the tick has (bench/stack).
#[inline(always)]
pub(crate) fn step(s: Settings, st: &mut State, x: Weights)
    ensures { st.new ≡ stepped_of s st.old x }
{
    if batch::sequence::is_idle(st.sequence.stage) {
        return;
    }
    let v = batch::comparison::compared(s.batching.mode, x);
    let unfit = !weight::is_fit(x);
    let after = batch::advance(
        s.batching,
        st.setpoints,
        st.sequence,
        unfit,
        v,
        x.stable,
        x.gross,
    );
    st.sequence = after.sequence;
    if batch::sequence::is_idle(st.sequence.stage) {
        if after.finished {
            st.sequence = totals::booked_sequence(st.totals, v, st.sequence);
            st.totals = totals::booked_totals(st.totals, v);
        }
        st.setpoints = setpoints::waiting::latest(st.setpoints, st.waiting);
        st.waiting = None;
    }
}
