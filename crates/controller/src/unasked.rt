// A tick that is asked nothing, as most are.
ghost use Rattle.std.specs.Prelude.{◌≡◌};
ghost use Rattle.outline.specs.Tick.{tick_of, unasked_of};
ghost use Rattle.outline.specs.Numbers.{outcome_number};

use crate::outputs::outputs;
use crate::step::step;
use types::machine::{State, Ticked};
use types::settings::Settings;

// Step 4 leaves the state as it is, and step 3's weights serve to the end. Drawn into its caller, so that outputs which that looks at none
// of are not worked out: of a ticket's ticks nearly all.
#[inline(always)]
pub fn inlined_tick(s: Settings, mut st: State, count: i32, contact: bool) -> Ticked
    ensures ticked { result ≡ tick_of s st (unasked_of count contact) }
    ensures number { outcome_number result.answer.outcome ≡ 0 }
{
    let raw = weight::raw::raw_of(s.calibration, count);
    // In a local too, as in a block.
    let steadied = weight::stability::steadied(s.steadiness, st.stability, st.book.last, raw);
    st.stability = steadied;
    st.book = daybook::book_tick(st.book, raw, contact);
    let x = weight::weigh(s, steadied, st.weighing, raw, contact);
    let idle = batch::sequence::is_idle(st.sequence.stage);
    st.weighing = zero::tracking::tracked(s, idle, false, x, st.weighing);
    step(s, &mut st, x);
    Ticked {
        state: st,
        answer: outputs(s, Ok(()), None, x, st),
    }
}

// The same tick in a frame of its own, in whatever loop it is called.
#[inline(never)]
pub fn unasked_tick(s: Settings, st: State, count: i32, contact: bool) -> Ticked
    ensures ticked { result ≡ tick_of s st (unasked_of count contact) }
    ensures number { outcome_number result.answer.outcome ≡ 0 }
{
    inlined_tick(s, st, count, contact)
}
