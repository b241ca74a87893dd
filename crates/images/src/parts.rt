// The parts of a state at their places in its image: read, whatever the bytes are, and written. The tables are those of
// specs/StateImage.antt. Each asks for the length before its first byte, so that the compiler reads a number in one piece. An earlier image
// is read too; a shorter buffer holds no state and reads as the opening's. Only a buffer of the present length is written.
// The opening's values stand here once more: a default would belong to the types, and the crates that open a state are not below this one.
ghost use Rattle.std.specs.Prelude.{◌≡◌, ◌≤◌, Some, None};
ghost use Rattle.places.specs.Places.{get_all, put_all};
ghost use Rattle.images.specs.StateImage.{state_length, state_at, book_rows, book_numbers, stability_rows, stability_numbers};
ghost use Rattle.images.specs.StateImage.{weighing_rows, weighing_numbers, panel_rows, panel_numbers, setpoint_rows, setpoint_numbers};
ghost use Rattle.images.specs.StateImage.{sequence_rows, sequence_numbers, totals_rows, totals_numbers, waiting_rows, waiting_numbers};
ghost use Rattle.images.specs.StateImage.{seven_rows, setpoints_of};
ghost use Rattle.images.specs.Buffers.{bytes_of, bytes_from, put_part};
ghost use Rattle.types.specs.declared.machine.State.{State};
ghost use Rattle.outline.specs.Setpoints.{none_waiting, waiting_for};
ghost use Rattle.outline.specs.Parts.{with_book, with_stability, with_weighing, with_setpoints, with_waiting, with_sequence, with_totals};
ghost use Rattle.images.specs.Holds.{Turns, with_panel};

use crate::names::{display_number, display_of, error_of, judgement_of, stage_of, stage_timer};
use numbers::{error_number, judgement_number, stage_number};
use types::daybook::Book;
use types::stages::{Judgement, Sequence, SequenceError, Setpoints, Stage, Totals};
use types::weight::{Display, Panel, Stability, Weighing};

// The bytes of a state image.
pub const STATE_LENGTH: usize = 288;

// Those of one before request A5.
pub(crate) const EARLIER_LENGTH: usize = 256;

#[tactic(auto, using(crate::proofs::Buffers::reads), unfolding(crate::specs::StateImage::state_at, places::specs::Places::get_all))]
pub fn book_at(s: &[u8]) -> Book
    ensures { result ≡ (state_at (bytes_from s.now)).book }
{
    if s.len() < EARLIER_LENGTH {
        return Book {
            opening: 0,
            last: 0,
            refilled: 0,
            used: 0,
            unbooked: 0,
            ticks: 0,
            begun: false,
            contact: false,
        };
    }
    Book {
        opening: places::read(s, 0),
        last: places::read(s, 4),
        refilled: places::read(s, 8),
        used: places::read(s, 16),
        unbooked: places::read(s, 24),
        ticks: places::read(s, 32),
        begun: places::read(s, 36),
        contact: places::read(s, 37),
    }
}

#[tactic(auto, using(crate::proofs::InPlace::writes), unfolding(places::specs::Places::put_all))]
pub fn put_book(s: &mut [u8], b: Book)
    ensures state { Turns s.old s.new (λ (st : State). with_book st b) }
    ensures bytes { s.new ≡ put_part book_rows (book_numbers b) s.old }
{
    if s.len() != STATE_LENGTH {
        return;
    }
    places::put(s, 0, b.opening);
    places::put(s, 4, b.last);
    places::put(s, 8, b.refilled);
    places::put(s, 16, b.used);
    places::put(s, 24, b.unbooked);
    places::put(s, 32, b.ticks);
    places::put(s, 36, b.begun);
    places::put(s, 37, b.contact);
}

#[tactic(auto, using(crate::proofs::Buffers::reads), unfolding(crate::specs::StateImage::state_at, places::specs::Places::get_all))]
pub fn stability_at(s: &[u8]) -> Stability
    ensures { result ≡ (state_at (bytes_from s.now)).stability }
{
    if s.len() < EARLIER_LENGTH {
        return Stability {
            good: false,
            run: 0,
        };
    }
    Stability {
        good: places::read(s, 40),
        run: places::read(s, 42),
    }
}

#[tactic(auto, using(crate::proofs::InPlace::writes), unfolding(places::specs::Places::put_all))]
pub fn put_stability(s: &mut [u8], q: Stability)
    ensures state { Turns s.old s.new (λ (st : State). with_stability st q) }
    ensures bytes { s.new ≡ put_part stability_rows (stability_numbers q) s.old }
{
    if s.len() != STATE_LENGTH {
        return;
    }
    places::put(s, 40, q.good);
    places::put(s, 42, q.run);
}

#[tactic(auto, using(crate::proofs::Buffers::reads), unfolding(crate::specs::StateImage::state_at, places::specs::Places::get_all))]
pub fn weighing_at(s: &[u8]) -> Weighing
    ensures { result ≡ (state_at (bytes_from s.now)).weighing }
{
    if s.len() < EARLIER_LENGTH {
        return Weighing {
            zero: 0,
            tracked: 0,
            tare: 0,
            counter: 0,
        };
    }
    Weighing {
        zero: places::read(s, 44),
        tracked: places::read(s, 48),
        tare: places::read(s, 52),
        counter: places::read(s, 56),
    }
}

#[tactic(auto, using(crate::proofs::InPlace::writes), unfolding(places::specs::Places::put_all))]
pub fn put_weighing(s: &mut [u8], w: Weighing)
    ensures state { Turns s.old s.new (λ (st : State). with_weighing st w) }
    ensures bytes { s.new ≡ put_part weighing_rows (weighing_numbers w) s.old }
{
    if s.len() != STATE_LENGTH {
        return;
    }
    places::put(s, 44, w.zero);
    places::put(s, 48, w.tracked);
    places::put(s, 52, w.tare);
    places::put(s, 56, w.counter);
}

#[tactic(auto, using(crate::proofs::Buffers::reads), unfolding(crate::specs::StateImage::state_at, places::specs::Places::get_all))]
pub fn panel_at(s: &[u8]) -> Panel
    ensures { result ≡ (state_at (bytes_from s.now)).panel }
{
    if s.len() < EARLIER_LENGTH {
        return Panel {
            display: Display::Gross,
        };
    }
    Panel {
        display: display_of(places::read(s, 58)),
    }
}

#[tactic(auto, using(crate::proofs::InPlace::writes), unfolding(places::specs::Places::put_all))]
pub fn put_panel(s: &mut [u8], p: Panel)
    ensures state { Turns s.old s.new (λ (st : State). with_panel st p) }
    ensures bytes { s.new ≡ put_part panel_rows (panel_numbers p) s.old }
{
    if s.len() != STATE_LENGTH {
        return;
    }
    places::put(s, 58, display_number(p.display));
}

// The setpoints where there are none.
const NO_POINTS: Setpoints = Setpoints {
    target: 0,
    fall: 0,
    preliminary: 0,
    optional: 0,
    over: 0,
    under: 0,
    near: 0,
};

// Setpoints stand at two places, in use and waiting. Drawn into its callers, where the place and the length are known, a number is read in
// one piece.
#[inline(always)]
#[tactic(auto, unfolding(places::specs::Places::get_all))]
fn points_at(s: &[u8], at: usize) -> Setpoints
    requires { at ≤ 260 }
    ensures { result ≡ setpoints_of (get_all (seven_rows at) s.now) }
{
    Setpoints {
        target: places::read(s, at),
        fall: places::read(s, at + 4),
        preliminary: places::read(s, at + 8),
        optional: places::read(s, at + 12),
        over: places::read(s, at + 16),
        under: places::read(s, at + 20),
        near: places::read(s, at + 24),
    }
}

#[inline(always)]
#[tactic(auto, unfolding(places::specs::Places::put_all))]
fn put_points(s: &mut [u8], at: usize, p: Setpoints)
    requires { at ≤ 260 }
    ensures { s.new ≡ put_all (seven_rows at) (setpoint_numbers p) s.old }
{
    places::put(s, at, p.target);
    places::put(s, at + 4, p.fall);
    places::put(s, at + 8, p.preliminary);
    places::put(s, at + 12, p.optional);
    places::put(s, at + 16, p.over);
    places::put(s, at + 20, p.under);
    places::put(s, at + 24, p.near);
}

#[tactic(auto, using(crate::proofs::Buffers::reads), unfolding(crate::specs::StateImage::state_at, places::specs::Places::get_all))]
pub fn setpoints_at(s: &[u8]) -> Setpoints
    ensures { result ≡ (state_at (bytes_from s.now)).setpoints }
{
    if s.len() < EARLIER_LENGTH {
        return NO_POINTS;
    }
    points_at(s, 60)
}

#[tactic(auto, using(crate::proofs::InPlace::writes), unfolding(places::specs::Places::put_all))]
pub fn put_setpoints(s: &mut [u8], p: Setpoints)
    ensures state { Turns s.old s.new (λ (st : State). with_setpoints st p) }
    ensures bytes { s.new ≡ put_part setpoint_rows (setpoint_numbers p) s.old }
{
    if s.len() != STATE_LENGTH {
        return;
    }
    put_points(s, 60, p);
}

#[tactic(auto, using(crate::proofs::Buffers::reads), unfolding(crate::specs::StateImage::state_at, places::specs::Places::get_all))]
pub fn sequence_at(s: &[u8]) -> Sequence
    ensures { result ≡ (state_at (bytes_from s.now)).sequence }
{
    if s.len() < EARLIER_LENGTH {
        return Sequence {
            stage: Stage::Idle,
            clock: 0,
            error: SequenceError::None,
            judgement: Judgement::None,
        };
    }
    Sequence {
        stage: stage_of(places::read(s, 88), places::read(s, 90)),
        clock: places::read(s, 92),
        error: error_of(places::read(s, 94)),
        judgement: judgement_of(places::read(s, 95)),
    }
}

#[tactic(auto, using(crate::proofs::InPlace::writes), unfolding(places::specs::Places::put_all))]
pub fn put_sequence(s: &mut [u8], q: Sequence)
    ensures state { Turns s.old s.new (λ (st : State). with_sequence st q) }
    ensures bytes { s.new ≡ put_part sequence_rows (sequence_numbers q) s.old }
{
    if s.len() != STATE_LENGTH {
        return;
    }
    places::put(s, 88, stage_number(q.stage));
    places::put(s, 90, stage_timer(q.stage));
    places::put(s, 92, q.clock);
    places::put(s, 94, error_number(q.error));
    places::put(s, 95, judgement_number(q.judgement));
}

#[tactic(auto, using(crate::proofs::Buffers::reads), unfolding(crate::specs::StateImage::state_at, places::specs::Places::get_all))]
pub fn totals_at(s: &[u8]) -> Totals
    ensures { result ≡ (state_at (bytes_from s.now)).totals }
{
    if s.len() < EARLIER_LENGTH {
        return Totals {
            total: 0,
            count: 0,
            back: None,
        };
    }
    Totals {
        total: places::read(s, 96),
        count: places::read(s, 104),
        back: places::read::<bool>(s, 108).then_some(places::read(s, 112)),
    }
}

#[tactic(auto, using(crate::proofs::InPlace::writes), unfolding(places::specs::Places::put_all))]
pub fn put_totals(s: &mut [u8], t: Totals)
    ensures state { Turns s.old s.new (λ (st : State). with_totals st t) }
    ensures bytes { s.new ≡ put_part totals_rows (totals_numbers t) s.old }
{
    if s.len() != STATE_LENGTH {
        return;
    }
    places::put(s, 96, t.total);
    places::put(s, 104, t.count);
    places::put(s, 108, t.back.is_some());
    places::put(s, 112, t.back.unwrap_or(0));
}

// The waiting setpoints stand past the end of an earlier image: none are waiting in it.
#[tactic(auto, using(crate::proofs::Buffers::reads), unfolding(crate::specs::StateImage::state_at, places::specs::Places::get_all))]
pub fn waiting_at(s: &[u8]) -> Option<Setpoints>
    ensures { result ≡ (state_at (bytes_of state_length s.now)).waiting }
{
    if s.len() != STATE_LENGTH {
        return None;
    }
    places::read::<bool>(s, 256).then_some(points_at(s, 260))
}

// What waits, or that nothing does: its numbers are 0 then.
#[tactic(auto, using(crate::proofs::InPlace::writes), unfolding(places::specs::Places::put_all))]
fn put_write(s: &mut [u8], w: Option<Setpoints>)
    ensures state { Turns s.old s.new (λ (st : State). with_waiting st w) }
    ensures bytes { s.new ≡ put_part waiting_rows (waiting_numbers w) s.old }
{
    if s.len() != STATE_LENGTH {
        return;
    }
    places::put(s, 256, w.is_some());
    put_points(s, 260, w.unwrap_or(NO_POINTS));
}

// These setpoints wait.
pub fn put_waiting(s: &mut [u8], p: Setpoints)
    ensures state { Turns s.old s.new (λ (st : State). with_waiting st (waiting_for p)) }
    ensures bytes { s.new ≡ put_part waiting_rows (waiting_numbers (waiting_for p)) s.old }
{
    put_write(s, Some(p));
}

// Nothing waits any more.
pub fn clear_waiting(s: &mut [u8])
    ensures state { Turns s.old s.new (λ (st : State). with_waiting st none_waiting) }
    ensures bytes { s.new ≡ put_part waiting_rows (waiting_numbers none_waiting) s.old }
{
    put_write(s, None);
}
