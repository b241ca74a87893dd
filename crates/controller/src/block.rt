// A block of counts, lent at once: the ticks one after another, with one contact and no requests.
ghost use Rattle.std.specs.Prelude.{◌≡◌};
ghost use Rattle.outline.specs.Tick.{block_of};
ghost use Rattle.outline.specs.Numbers.{block_number};
ghost use Rattle.outline.specs.Answers.{block_due};

use types::machine::{BlockRefusal, Blocked, State};
use types::settings::Settings;

// The counts of one block.
pub const BLOCK_LIMIT: usize = 4_096;

// With no request step 4 leaves the state as it is, and step 3's weights serve to the end. The ticks stand in the loop itself: a call that
// takes the state and gives it back would copy it whole.
#[tactic(auto, unfolding(outline::specs::Tick::block_of))]
pub fn run_block(s: Settings, mut st: State, counts: &[i32], contact: bool) -> Blocked
    ensures blocked { result ≡ block_of s st counts.now contact }
    ensures number { block_number result.answer ≡ block_due counts.now }
{
    if BLOCK_LIMIT < counts.len() {
        return Blocked {
            answer: Err(BlockRefusal::TooLong),
            state: st,
        };
    }
    // The setpoints in use change at most once, in the tick that returns to 00, and no later tick of the block compares: this copy serves
    // every tick that does. With it the state itself is lent to no call, and stays where it is quick.
    let points = st.setpoints;
    for &count in counts {
        let raw = weight::raw::raw_of(s.calibration, count);
        // In a local too, and so in a register: it is weighed with at once, and what was just written in pieces is slow to read whole.
        let steadied = weight::stability::steadied(s.steadiness, st.stability, st.book.last, raw);
        st.stability = steadied;
        st.book = daybook::book_tick(st.book, raw, contact);
        let x = weight::weigh(s, steadied, st.weighing, raw, contact);
        let idle = batch::sequence::is_idle(st.sequence.stage);
        st.weighing = zero::tracking::tracked(s, idle, false, x, st.weighing);
        // Step 6 stands here and not as a call of `step`, to which the state would be lent.
        if !idle {
            let v = batch::comparison::compared(s.batching.mode, x);
            let unfit = !weight::is_fit(x);
            let after = batch::advance(
                s.batching,
                points,
                st.sequence,
                unfit,
                v,
                x.stable,
                x.gross,
            );
            st.sequence = after.sequence;
            if batch::sequence::is_idle(st.sequence.stage) {
                if after.finished {
                    st.sequence = totals::booked_sequence(st.totals, v, st.sequence);
                    st.totals = totals::booked_totals(st.totals, v);
                }
                st.setpoints = setpoints::waiting::latest(points, st.waiting);
                st.waiting = None;
            }
        }
    }
    Blocked {
        answer: Ok(()),
        state: st,
    }
}
