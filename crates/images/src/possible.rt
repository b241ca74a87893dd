// What a state can be, under settings as they are given: the test behind 21, range by range of specs/Possible.antt. A number of the
// settings counts without its sign; whether the settings are in their own ranges is asked later, and answered with 10.
#![tactic(auto, unfolding(outline::specs::Settings::settings_of, crate::specs::GivenImage::given_at, places::specs::Places::get_all))]

ghost use Rattle.std.specs.Prelude.{◌≡◌, ◌+◌, ◌*◌, ◌≤◌, leb, nat_abs, ◌+ℤ◌, ◌-ℤ◌};
ghost use Rattle.std.specs.Int.{w32};
ghost use Rattle.places.specs.Places.{be_at, signed};
ghost use Rattle.whole.specs.Ints.{eq_z};
ghost use Rattle.outline.specs.Limits.{raw_limit, rise_limit};
ghost use Rattle.outline.specs.Settings.{settings_of};
ghost use Rattle.images.specs.Possible.{blank_book, book_possible, stability_possible, weighing_possible, time_of, clock_limit};
ghost use Rattle.images.specs.Possible.{sequence_fits, totals_possible, flow_possible, together_fits, rest_possible};
ghost use Rattle.images.specs.GivenImage.{given_at};
ghost use Rattle.images.specs.Buffers.{is_image, possible_in};
ghost use Rattle.outline.specs.Ranges.{write_fits};
ghost use Rattle.outline.specs.Zero.{tracking_on};

use crate::given::GIVEN_LENGTH;
use crate::names::stage_timer;
use crate::parts::{
    EARLIER_LENGTH, STATE_LENGTH, book_at, sequence_at, setpoints_at, stability_at, totals_at,
    waiting_at, weighing_at,
};
use numbers::{error_number, judgement_number, stage_number};
use setpoints::{has_no_large, setpoints_fit};
use settings::mode_of;
use types::daybook::Book;
use types::settings::Mode;
use types::stages::{Sequence, Setpoints, Totals};
use types::weight::{Stability, Weighing};

const RAW_LIMIT: u32 = 4_000_000;

// The most that raw changes from one good tick to the next.
const RISE_LIMIT: u64 = 8_000_000;

const DAY_TICKS: u32 = 8_640_000;

const TOTAL_LIMIT: u64 = 99_999_999;

const BATCH_LIMIT: u32 = 99_999_999;

// Where the settings that bound a state stand in their image.
const CAPACITY: usize = 8;

const DIVISION: usize = 16;

const ZEROING: usize = 20;

const TRACK_TIME: usize = 24;

const TRACK_WIDTH: usize = 28;

const ALLOWANCE: usize = 32;

const STABLE_TIME: usize = 36;

const MODE: usize = 44;

const START: usize = 48;

const LARGE: usize = 52;

const MEDIUM: usize = 56;

const SMALL: usize = 60;

const JUDGE: usize = 64;

const FLOW: usize = 68;

const DISCHARGE_START: usize = 88;

const DISCHARGE_END: usize = 92;

const DISCHARGE_LIMIT: usize = 96;

// A number of the settings, at its place in their image g, without its sign.
fn given(g: &[u8], at: usize) -> u32
    ensures { result ≡ nat_abs (signed w32 (be_at 4 g.now at)) }
{
    places::read::<i32>(g, at).unsigned_abs()
}

// Before the first good tick.
fn is_blank(b: Book) -> bool
    ensures { result ≡ blank_book b }
{
    !b.contact
        & (b.opening == 0)
        & (b.last == 0)
        & (b.refilled == 0)
        & (b.used == 0)
        & (b.unbooked == 0)
}

fn is_raw(x: i32) -> bool
    ensures { result ≡ leb (nat_abs x) raw_limit }
{
    x.unsigned_abs() <= RAW_LIMIT
}

// What stands at the places may be any number: a sum is made of two that are found small enough for it. No day's sum is near this.
const SUM_ROOM: u64 = 1_000_000_000_000_000_000;

fn sums_fit(refilled: i64, used: i64, ticks: u32) -> bool
    ensures { result ≡ leb (nat_abs refilled + nat_abs used) (rise_limit * ticks) }
{
    let r = refilled.unsigned_abs();
    if r > SUM_ROOM {
        return false;
    }
    let u = used.unsigned_abs();
    if u > SUM_ROOM {
        return false;
    }
    r + u <= RISE_LIMIT * u64::from(ticks)
}

fn fall_fits(unbooked: i64, last: i32) -> bool
    ensures { result ≡ leb (nat_abs (unbooked +ℤ last)) raw_limit }
{
    if unbooked.unsigned_abs() > SUM_ROOM {
        return false;
    }
    (unbooked + i64::from(last)).unsigned_abs() <= u64::from(RAW_LIMIT)
}

// Of sums that fit.
fn is_balanced(opening: i32, refilled: i64, used: i64, unbooked: i64, last: i32) -> bool
    requires used_bound { nat_abs refilled + nat_abs used ≤ 1000000000000000000 }
    requires unbooked_bound { nat_abs unbooked ≤ 1000000000000000000 }
    ensures { result ≡ eq_z (opening +ℤ refilled -ℤ used -ℤ unbooked) last }
{
    i64::from(opening) + refilled - used - unbooked == i64::from(last)
}

#[tactic(auto, using(crate::proofs::Tests::book_sums, crate::proofs::Tests::book_fall))]
fn is_book(b: Book) -> bool
    ensures { result ≡ book_possible b }
{
    if !sums_fit(b.refilled, b.used, b.ticks) {
        return false;
    }
    if !fall_fits(b.unbooked, b.last) {
        return false;
    }
    (b.ticks <= DAY_TICKS)
        & is_raw(b.opening)
        & is_raw(b.last)
        & ((DAY_TICKS <= b.ticks) | (b.unbooked == 0))
        & (b.begun | is_blank(b))
        & is_balanced(b.opening, b.refilled, b.used, b.unbooked, b.last)
}

fn is_stability(g: &[u8], q: Stability) -> bool
    ensures { result ≡ stability_possible (settings_of (given_at g.now)).steadiness q }
{
    (u32::from(q.run) <= given(g, STABLE_TIME)) & (q.good | (q.run == 0))
}

fn is_tracking(g: &[u8]) -> bool
    ensures { result ≡ tracking_on (settings_of (given_at g.now)).tracking }
{
    (0 < given(g, TRACK_TIME)) & (0 < given(g, TRACK_WIDTH))
}

fn is_weighing(g: &[u8], w: Weighing) -> bool
    ensures { result ≡ weighing_possible (settings_of (given_at g.now)).range (settings_of (given_at g.now)).tracking w }
{
    let capacity = u64::from(given(g, CAPACITY));
    let zeroes = capacity * u64::from(given(g, ZEROING)) / 10;
    let tares = capacity * u64::from(given(g, DIVISION));
    (u64::from(w.zero.unsigned_abs()) <= zeroes)
        & (u64::from(w.zero.abs_diff(w.tracked)) <= zeroes)
        & (w.tracked.unsigned_abs() <= given(g, ALLOWANCE))
        & (u32::from(w.counter) < given(g, TRACK_TIME).max(1))
        & (0 <= w.tare)
        & (u64::from(w.tare.unsigned_abs()) <= tares)
        & (is_tracking(g) | ((w.counter == 0) & (w.tracked == 0)))
}

// The setting of a timed stage, by its number; 0 for any other.
fn time_of(g: &[u8], n: u8) -> u32
    ensures { result ≡ time_of (settings_of (given_at g.now)).batching n }
{
    match n {
        3 => given(g, START),
        4 => given(g, LARGE),
        6 => given(g, MEDIUM),
        8 => given(g, SMALL),
        10 => given(g, JUDGE),
        14 => given(g, DISCHARGE_START),
        16 => given(g, DISCHARGE_END),
        _ => 0,
    }
}

// The most that the clock of a stage shows, by its number; 0 where none runs.
fn clock_limit(g: &[u8], n: u8) -> u32
    ensures { result ≡ clock_limit (settings_of (given_at g.now)).batching n }
{
    match n {
        4..=11 => given(g, FLOW),
        15.. => given(g, DISCHARGE_LIMIT),
        _ => 0,
    }
}

// By the stage's number n, its timer t, the error's number e and the judgement's j.
fn is_sequence(g: &[u8], n: u8, t: u16, clock: u16, e: u8, j: u8) -> bool
    ensures { result ≡ sequence_fits (settings_of (given_at g.now)).batching n t clock e j }
{
    (u32::from(t) < time_of(g, n).max(1))
        & (u32::from(clock) <= clock_limit(g, n))
        & ((n == 0) | (e == 0))
        & ((n == 0) | (14 <= n) | (j == 0))
        & ((places::read::<i32>(g, MODE) == 1) | !((14 <= n) | (e == 7) | (e == 8)))
}

#[tactic(auto, unfolding(crate::specs::StateImage::back_tag, crate::specs::StateImage::back_weight))]
fn is_totals(t: Totals) -> bool
    ensures { result ≡ totals_possible t }
{
    (t.total <= TOTAL_LIMIT)
        & (t.count <= BATCH_LIMIT)
        & (t.back.unwrap_or(0) <= t.total)
        & (u32::from(t.back.is_some()) <= t.count)
}

// The flow stages that a batch with these setpoints has, by the stage's number.
fn flow_fits(m: Mode, p: Setpoints, n: u8) -> bool
    ensures { result ≡ flow_possible m p n }
{
    ((n < 4) | (11 < n) | (p.target != 0))
        & (!((n == 4) | (n == 5)) | !has_no_large(m, p))
        & (!((n == 6) | (n == 7)) | (p.preliminary != 0))
}

fn is_together(
    m: Mode,
    p: Setpoints,
    n: u8,
    good: bool,
    begun: bool,
    counter: u16,
    waits: bool,
) -> bool
    ensures { result ≡ together_fits m p n good begun counter waits }
{
    (!good | begun)
        & ((n == 0) | good)
        & (((n == 0) & good) | (counter == 0))
        & ((n != 0) | !waits)
        & flow_fits(m, p, n)
}

fn given_mode(g: &[u8]) -> Mode
    ensures { result ≡ (settings_of (given_at g.now)).batching.mode }
{
    mode_of(places::read(g, MODE))
}

// What waits keeps the rules of 6.
fn write_fits(g: &[u8], w: Option<Setpoints>) -> bool
    ensures { result ≡ write_fits (settings_of (given_at g.now)).batching.mode w }
{
    match w {
        None => true,
        Some(p) => setpoints_fit(given_mode(g), p),
    }
}

// What is left to ask after the day book, the totals, zero and tare, and what waits: the other parts, and how all go together. In the
// frame of its caller, which is as large.
#[inline(always)]
fn is_rest(
    g: &[u8],
    q: Stability,
    p: Setpoints,
    x: Sequence,
    begun: bool,
    counter: u16,
    waits: bool,
) -> bool
    ensures { result ≡ rest_possible (settings_of (given_at g.now)) q p x begun counter waits }
{
    let mode = given_mode(g);
    let n = stage_number(x.stage);
    let t = stage_timer(x.stage);
    let e = error_number(x.error);
    let j = judgement_number(x.judgement);
    is_stability(g, q)
        & setpoints_fit(mode, p)
        & is_sequence(g, n, t, x.clock, e, j)
        & is_together(mode, p, n, q.good, begun, counter, waits)
}

// The length of a state image, or of an earlier one.
fn is_image(n: usize) -> bool
    ensures { result ≡ is_image n }
{
    (n == STATE_LENGTH) | (n == EARLIER_LENGTH)
}

// Whether the state in the image s, or in an earlier one, can be under the settings in the image g: part by part, so that few parts are at
// hand at once, and in a frame of its own, which is given back before a tick begins (bench/stack).
#[inline(never)]
pub fn is_possible(g: &[u8], s: &[u8]) -> bool
    ensures { result ≡ possible_in g.now s.now }
{
    if g.len() != GIVEN_LENGTH {
        return false;
    }
    if !is_image(s.len()) {
        return false;
    }
    let book = book_at(s);
    if !is_book(book) {
        return false;
    }
    let totals = totals_at(s);
    if !is_totals(totals) {
        return false;
    }
    let weighing = weighing_at(s);
    if !is_weighing(g, weighing) {
        return false;
    }
    let waiting = waiting_at(s);
    if !write_fits(g, waiting) {
        return false;
    }
    is_rest(
        g,
        stability_at(s),
        setpoints_at(s),
        sequence_at(s),
        book.begun,
        weighing.counter,
        waiting.is_some(),
    )
}
