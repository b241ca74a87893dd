// The controller: its opening, one tick in the outline's six steps, a block of ticks. Settings and state go in by value, and the state
// comes back; nothing is asked of a caller. Each step is a call of its section, and assigns the part of the state that it makes: a
// function that takes the state and gives it back would copy it whole.
#![tactic(auto)]

ghost use Rattle.std.specs.Prelude.{◌≡◌};
ghost use Rattle.outline.specs.Tick.{tick_of};
ghost use Rattle.outline.specs.Numbers.{outcome_number};
ghost use Rattle.outline.specs.Answers.{tick_due};

use crate::outputs::outputs;
use crate::step::step;
use types::machine::{Input, State, Ticked};
use types::requests::Request;
use types::settings::Settings;
use types::weight::Display;

pub mod block;
pub mod opening;
pub mod outputs;
mod step;
pub mod unasked;

// One tick, in the outline's order. A tick that asks nothing may be had cheaper: `unasked::unasked_tick`.
pub fn tick(s: Settings, mut st: State, i: Input) -> Ticked
    ensures ticked { result ≡ tick_of s st i }
    ensures number { outcome_number result.answer.outcome ≡ tick_due s st i }
{
    // 1. Count to raw.
    let raw = weight::raw::raw_of(s.calibration, i.count);
    // 2. Day book. The stability comes before it: its change of raw is from the last good raw as it was before this tick.
    st.stability = weight::stability::steadied(s.steadiness, st.stability, st.book.last, raw);
    st.book = daybook::book_tick(st.book, raw, i.contact);
    // 3. Gross, overload, stability.
    let x = weight::weigh(s, st.stability, st.weighing, raw, i.contact);
    // 4. The tick's request. What is done of it changes one part of the state; a stop also brings waiting setpoints into use.
    let outcome = requests::ruling(
        s.range,
        s.batching.mode,
        st.sequence,
        st.totals,
        x,
        i.request,
    );
    let mut held = false;
    let mut keyed = false;
    let mut closed = None;
    if let Ok(()) = outcome {
        if let Some(request) = i.request {
            match request {
                Request::Zero => {
                    st.weighing = zero::zeroed(st.weighing, x.raw);
                    keyed = true;
                }
                Request::Tare => st.weighing = zero::tared(st.weighing, x.gross),
                Request::TareClear => st.weighing = zero::tared(st.weighing, 0),
                Request::Start => {
                    st.sequence = batch::sequence::start_sequence();
                    held = true;
                }
                Request::Stop => {
                    if !batch::sequence::is_idle(st.sequence.stage) {
                        st.sequence = batch::sequence::stop_sequence(st.sequence);
                        st.setpoints = setpoints::waiting::latest(st.setpoints, st.waiting);
                        st.waiting = None;
                    }
                    held = true;
                }
                // Outside 00 a write waits.
                Request::Set(p) => {
                    if batch::sequence::is_idle(st.sequence.stage) {
                        st.setpoints = p;
                    } else {
                        st.waiting = Some(p);
                    }
                }
                Request::TotalClear => st.totals = totals::clear_totals(),
                Request::Undo => st.totals = totals::take_back(st.totals),
                Request::ShowGross => st.panel.display = Display::Gross,
                Request::ShowNet => st.panel.display = Display::Net,
                Request::DayClose => {
                    closed = Some(st.book);
                    st.book = daybook::closed_book(st.book);
                }
                Request::Discharge => {
                    st.sequence = batch::sequence::discharge_sequence(st.sequence);
                    held = true;
                }
            }
        }
    }
    // The weights again, with the zero and the tare that the request leaves.
    let served = weight::weigh(s, st.stability, st.weighing, raw, i.contact);
    // 5. Tracking.
    let idle = batch::sequence::is_idle(st.sequence.stage);
    st.weighing = zero::tracking::tracked(s, idle, keyed, served, st.weighing);
    // 6. Sequence, passed over after an accepted start or discharge, or a stop.
    if !held {
        step(s, &mut st, served);
    }
    Ticked {
        state: st,
        answer: outputs(s, outcome, closed, served, st),
    }
}
