// A tick in the buffer of its state, in the outline's six steps. Each reads the parts of the state that it asks for from their places and
// writes those that it makes, so that there is a state nowhere else: a tick takes little of a board's stack. Each step but
// the reply is called by two C calls or more, so that the compiler draws none into its caller: each gives its frame back before the next
// begins (docs/COST.md). What each promises is of the state that the buffer holds.
ghost use Rattle.std.specs.Prelude.{◌≡◌, true, false, None, Some, Result, ℕ};
ghost use Rattle.types.specs.declared.machine.State.{State};
ghost use Rattle.outline.specs.Weight.{raw_of};
ghost use Rattle.outline.specs.DayBook.{closed_of};
ghost use Rattle.outline.specs.Parts.{with_book, with_display, with_weighing, with_sequence, with_totals, pick_state};
ghost use Rattle.outline.specs.Stages.{idle_of, discharge_sequence};
ghost use Rattle.outline.specs.Totals.{booked_totals, booked_sequence, taken_back};
ghost use Rattle.outline.specs.Zero.{zeroed_of, tared_of, tracked_of};
ghost use Rattle.outline.specs.Requests.{idle_now, ruling_of, comes_in, stopped_of, stored_of, granted_of};
ghost use Rattle.outline.specs.Steps.{answered_of};
ghost use Rattle.outline.specs.Tick.{entered_of, weights_of, stepped_of, reading_of, outputs_of};
ghost use Rattle.outline.specs.Replies.{reply_text, reply_due, written_of};
ghost use Rattle.replies.specs.Wrote.{wrote_of};
ghost use Rattle.images.specs.Holds.{Holds, Turns, Tells};
ghost use Rattle.board.specs.InPlace.{raw_in, held_by, keyed_by, beside_batch, batch_done, closed_put, outputs_put};

use crate::answer::{put_closed, put_outputs};
use images::parts::{
    book_at, clear_waiting, panel_at, put_book, put_panel, put_sequence, put_setpoints,
    put_stability, put_totals, put_waiting, put_weighing, sequence_at, setpoints_at, stability_at,
    totals_at, waiting_at, weighing_at,
};
use replies::ShortBuffer;
use types::lines::{LineFault, Order};
use types::machine::State;
use types::requests::{Refusal, Request};
use types::settings::Settings;
use types::stages::{Sequence, Setpoints};
use types::weight::{Display, Panel, Stability, Weighing, Weights};

// 1. to 3.: count to raw, day book, weights. The stability's change of raw is from the last good raw as it was before this tick.
pub(crate) fn enter(s: Settings, count: i32, contact: bool, state: &mut [u8]) -> Weights
    ensures state { Turns state.old state.new (λ (st : State).
        entered_of s st (raw_of s.calibration count) contact) }
    ensures weights { Tells state.old (λ (st : State).
        result ≡ weights_of s (entered_of s st (raw_of s.calibration count) contact) (raw_of s.calibration count) contact) }
{
    let raw = weight::raw::raw_of(s.calibration, count);
    let book = book_at(state);
    let stability = stability_at(state);
    let weighing = weighing_at(state);
    let steadied = weight::stability::steadied(s.steadiness, stability, book.last, raw);
    put_book(state, daybook::book_tick(book, raw, contact));
    put_stability(state, steadied);
    weight::weigh(s, steadied, weighing, raw, contact)
}

// After 4., the weights x again, with the zero and the tare that stand in the buffer now.
pub(crate) fn again(s: Settings, x: Weights, state: &[u8]) -> Weights
    ensures { Tells state.now (λ (st : State). result ≡ weights_of s st (raw_in x) x.contact) }
{
    // The raw that was weighed, or none.
    let raw = x.good.then_some(x.raw);
    weight::weigh(s, stability_at(state), weighing_at(state), raw, x.contact)
}

// 4. The ruling: accepted, or refused with its number.
pub(crate) fn ruled(
    s: Settings,
    x: Weights,
    request: Option<Request>,
    state: &[u8],
) -> Result<(), Refusal>
    ensures { Tells state.now (λ (st : State). result ≡ ruling_of s st x request) }
{
    requests::ruling(
        s.range,
        s.batching.mode,
        sequence_at(state),
        totals_at(state),
        x,
        request,
    )
}

// The day goes into the answer as it was; the next one begins.
fn close(state: &mut [u8], answer: &mut [u8])
    ensures state { Turns state.old state.new (λ (st : State). with_book st (closed_of st.book)) }
    ensures day { Tells state.old (λ (st : State).
        answer.new ≡ closed_put (Some st.book) answer.old) }
{
    let day = book_at(state);
    put_closed(answer, Some(day));
    put_book(state, daybook::closed_book(day));
}

fn show(display: Display, state: &mut [u8])
    ensures { Turns state.old state.new (λ (st : State). with_display st display) }
{
    put_panel(state, Panel { display });
}

// The reply that is due to a line, into its buffer. A read changes nothing in step 4, so that what stands before it is what step 4 leaves.
// Of the state a reply asks for the panel, both sets of setpoints and the totals; the other parts stand as at the opening, and are not
// looked at. In a frame of its own, as every step is, though one call alone has it.
#[inline(never)]
pub(crate) fn reply(
    s: Settings,
    command: Result<Order, LineFault>,
    outcome: Result<(), Refusal>,
    x: Weights,
    state: &[u8],
    reply: &mut [u8],
) -> Result<usize, ShortBuffer>
    ensures wrote { Tells state.now (λ (st : State).
        result ≡ wrote_of (reply_text s.address (reply_due command st (reading_of x) outcome)) reply.old) }
    ensures bytes { Tells state.now (λ (st : State).
        reply.new ≡ written_of (reply_text s.address (reply_due command st (reading_of x) outcome)) reply.old) }
{
    let shown = State {
        book: daybook::open_book(),
        stability: Stability {
            good: false,
            run: 0,
        },
        weighing: Weighing {
            zero: 0,
            tracked: 0,
            tare: 0,
            counter: 0,
        },
        panel: panel_at(state),
        setpoints: setpoints_at(state),
        waiting: waiting_at(state),
        sequence: batch::sequence::open_sequence(),
        totals: totals_at(state),
    };
    let due = replies::due::reply_due(command, shown, controller::outputs::reading(x), outcome);
    replies::write_reply(reply, s.address, due)
}

// The zero is keyed at this raw.
fn key_zero(raw: i32, state: &mut [u8])
    ensures { Turns state.old state.new (λ (st : State). with_weighing st (zeroed_of st.weighing raw)) }
{
    put_weighing(state, zero::zeroed(weighing_at(state), raw));
}

// A tare takes the gross, a tare clear takes 0.
fn put_tare(tare: i32, state: &mut [u8])
    ensures { Turns state.old state.new (λ (st : State). with_weighing st (tared_of st.weighing tare)) }
{
    put_weighing(state, zero::tared(weighing_at(state), tare));
}

// The stage has returned to 00: what waits is in use, and nothing waits any more.
fn bring_in(state: &mut [u8])
    ensures { Turns state.old state.new (λ (st : State). comes_in true st) }
{
    if let Some(p) = waiting_at(state) {
        put_setpoints(state, p);
        clear_waiting(state);
    }
}

// In 00 a stop changes nothing.
fn stop(state: &mut [u8])
    ensures { Turns state.old state.new (λ (st : State). stopped_of st) }
{
    let sequence = sequence_at(state);
    if batch::sequence::is_idle(sequence.stage) {
        return;
    }
    put_sequence(state, batch::sequence::stop_sequence(sequence));
    bring_in(state);
}

// Setpoints are in use at once in 00, and wait in any other stage.
fn store(p: Setpoints, state: &mut [u8])
    ensures { Turns state.old state.new (λ (st : State). stored_of st p) }
{
    if batch::sequence::is_idle(sequence_at(state).stage) {
        put_setpoints(state, p);
    } else {
        put_waiting(state, p);
    }
}

fn discharge(state: &mut [u8])
    ensures { Turns state.old state.new (λ (st : State). with_sequence st (discharge_sequence st.sequence)) }
{
    put_sequence(
        state,
        batch::sequence::discharge_sequence(sequence_at(state)),
    );
}

// The batch that was booked last goes out of the totals again.
fn take_back(state: &mut [u8])
    ensures { Turns state.old state.new (λ (st : State). with_totals st (taken_back st.totals)) }
{
    put_totals(state, totals::take_back(totals_at(state)));
}

// 4. What is done of the request, d, but for those that `settle_batch` has: it changes at most one part of the state. A day that it closes
// goes into the answer. What reads a part before it writes it is a function of its own above, so that here each request is one line.
#[tactic(auto, using(crate::proofs::InTwo::over_none), unfolding(outline::specs::Requests::granted_of))]
pub(crate) fn settle(d: Option<Request>, x: Weights, state: &mut [u8], answer: &mut [u8])
    ensures state { Turns state.old state.new (λ (st : State). (granted_of st x (beside_batch d)).state) }
    ensures day { Tells state.old (λ (st : State).
        answer.new ≡ closed_put (granted_of st x (beside_batch d)).closed answer.old) }
{
    put_closed(answer, None);
    match d {
        Some(Request::Zero) => key_zero(x.raw, state),
        Some(Request::Tare) => put_tare(x.gross, state),
        Some(Request::TareClear) => put_tare(0, state),
        Some(Request::TotalClear) => put_totals(state, totals::clear_totals()),
        Some(Request::Undo) => take_back(state),
        Some(Request::ShowGross) => show(Display::Gross, state),
        Some(Request::ShowNet) => show(Display::Net, state),
        Some(Request::DayClose) => close(state, answer),
        _ => {}
    }
}

// 4. The requests of the batch, which turn the sequence or write setpoints. They stand apart from the others so that not both frames are
// held at once.
pub(crate) fn settle_batch(d: Option<Request>, state: &mut [u8])
    ensures { Turns state.old state.new (λ (st : State). batch_done st d) }
{
    match d {
        Some(Request::Start) => put_sequence(state, batch::sequence::start_sequence()),
        Some(Request::Stop) => stop(state),
        Some(Request::Set(p)) => store(p, state),
        Some(Request::Discharge) => discharge(state),
        _ => {}
    }
}

// Step 6 is passed over where a start, a stop or a discharge was done.
pub(crate) fn is_held(d: Option<Request>) -> bool
    ensures { result ≡ held_by d }
{
    matches!(d, Some(Request::Start | Request::Stop | Request::Discharge))
}

// Tracking begins anew where a zero was keyed.
pub(crate) fn is_keyed(d: Option<Request>) -> bool
    ensures { result ≡ keyed_by d }
{
    matches!(d, Some(Request::Zero))
}

// 5. Tracking. The stage is that which step 4 leaves.
pub(crate) fn track(s: Settings, keyed: bool, x: Weights, state: &mut [u8])
    ensures { Turns state.old state.new (λ (st : State).
        with_weighing st (tracked_of s (idle_now st) keyed x st.weighing)) }
{
    let idle = batch::sequence::is_idle(sequence_at(state).stage);
    let weighing = weighing_at(state);
    put_weighing(state, zero::tracking::tracked(s, idle, keyed, x, weighing));
}

// A finished batch of v is booked: the sequence that it leaves, and the totals. Both are of the totals as they were.
fn book_batch(v: i64, after: Sequence, state: &mut [u8])
    ensures { Turns state.old state.new (λ (st : State).
        with_totals (with_sequence st (booked_sequence st.totals v after)) (booked_totals st.totals v)) }
{
    let totals = totals_at(state);
    put_sequence(state, totals::booked_sequence(totals, v, after));
    put_totals(state, totals::booked_totals(totals, v));
}

// Step 6 of the sequence that the buffer holds, which its caller has read already and found outside 00.
fn go_on(s: Settings, sequence: Sequence, x: Weights, state: &mut [u8])
    ensures { Tells state.old (λ (st : State).
        sequence ≡ st.sequence → idle_of st.sequence.stage ≡ false → Holds state.new (stepped_of s st x)) }
{
    let v = batch::comparison::compared(s.batching.mode, x);
    let unfit = !weight::is_fit(x);
    let setpoints = setpoints_at(state);
    let after = batch::advance(s.batching, setpoints, sequence, unfit, v, x.stable, x.gross);
    if !batch::sequence::is_idle(after.sequence.stage) {
        return put_sequence(state, after.sequence);
    }
    // The stage returns to 00: after judgement and booking what waits is in use.
    if after.finished {
        book_batch(v, after.sequence, state);
    } else {
        put_sequence(state, after.sequence);
    }
    bring_in(state);
}

// 6. Sequence, passed over where step 4 says so. In stage 00 it has nothing to do.
pub(crate) fn step(s: Settings, held: bool, x: Weights, state: &mut [u8])
    ensures { Turns state.old state.new (λ (st : State). pick_state held st (stepped_of s st x)) }
{
    if held {
        return;
    }
    let sequence = sequence_at(state);
    if batch::sequence::is_idle(sequence.stage) {
        return;
    }
    go_on(s, sequence, x, state);
}

// Every output, of the state after step 6: of it they ask for the panel, the setpoints and the sequence. A closed day stands in the
// answer already.
pub(crate) fn answer(
    s: Settings,
    outcome: Result<(), Refusal>,
    told: u8,
    length: usize,
    x: Weights,
    state: &[u8],
    answer: &mut [u8],
)
    ensures { Tells state.now (λ (st : State).
        answer.new ≡ outputs_put told length (outputs_of s (answered_of outcome None st) x st) answer.old) }
{
    let shown = State {
        book: daybook::open_book(),
        stability: Stability {
            good: false,
            run: 0,
        },
        weighing: Weighing {
            zero: 0,
            tracked: 0,
            tare: 0,
            counter: 0,
        },
        panel: panel_at(state),
        setpoints: setpoints_at(state),
        waiting: None,
        sequence: sequence_at(state),
        totals: totals::clear_totals(),
    };
    let a = controller::outputs::outputs(s, outcome, None, x, shown);
    put_outputs(answer, told, length, a);
}
