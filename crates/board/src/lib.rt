// The calls of board/pressgully.h, which board_c exports to C. Between them nothing is kept: the state lies in the caller's 288 bytes, the
// settings in the caller's 128. A call judges both images, bytes and ranges, and runs its ticks in the buffer of the state; a refused one
// changes no byte of any buffer. An opening and a growth ask of the state's buffer its length alone; a growth judges the earlier image in
// its place.
#![tactic(auto)]

ghost use Rattle.std.specs.Prelude.{◌≡◌, cond, length, true, IfOk, MatchResult, Result, ℕ};
ghost use Rattle.outline.specs.Numbers.{outcome_number, block_number, told_number};
ghost use Rattle.outline.specs.Numbers.{opening_number};
ghost use Rattle.outline.specs.Settings.{open_of};
ghost use Rattle.outline.specs.Tick.{tick_of, block_of};
ghost use Rattle.outline.specs.Replies.{line_tick_of, reply_buffer};
ghost use Rattle.images.specs.GivenImage.{given_length, given_in};
ghost use Rattle.types.specs.declared.machine.State.{State};
ghost use Rattle.images.specs.StateImage.{earlier_length, image_of, state_at};
ghost use Rattle.images.specs.Buffers.{is_image};
ghost use Rattle.places.specs.Places.{Bytes};
ghost use Rattle.images.specs.Refusals.{bytes_number};
ghost use Rattle.images.specs.Holds.{Turns, Tells, with_panel};
ghost use Rattle.outline.specs.Parts.{with_book, with_stability, with_weighing, with_setpoints, with_sequence, with_totals};
ghost use Rattle.board.specs.Owed.{CallsAreTicks, OpensARun, CallsAreRuns, GrowsPass, GrowsARun, GrowsEarlier, LengthTold};
ghost use Rattle.board.specs.Board.{images_refusal, given_by, settings_by, length_refusal, open_answer, open_image};
ghost use Rattle.board.specs.Board.{grow_answer, grow_image};
ghost use Rattle.board.specs.Board.{if_room, room_answer, room_image, room_buffer, input_of, told_of};
ghost use Rattle.board.specs.Board.{tick_answer, tick_image, tick_buffer, line_answer, line_image, line_reply, line_buffer};
ghost use Rattle.board.specs.Board.{block_answer, block_image};
ghost use Rattle.board.specs.AskedBy.{is_known, request_in};
ghost use Rattle.board.specs.Called.{refusal_number, told_by, done_number, opened_number, judged_number, LeftToOpen};

use answer::put_closed;
use asked::{NoRequest, asked};
use commands::command_of;
use controller::block::BLOCK_LIMIT;
use controller::opening;
use images::given::{given_at, given_refusal};
use images::parts::{
    STATE_LENGTH, book_at, panel_at, put_book, put_panel, put_sequence, put_setpoints,
    put_stability, put_totals, put_weighing, sequence_at, setpoints_at, stability_at, totals_at,
    weighing_at,
};
use images::possible::is_possible;
use images::refusals::{ImageRefusal, image_number};
use images::state::{bytes_refusal, earlier_refusal};
use numbers::{
    LONG_BLOCK, NO_REQUEST, SETTINGS_REFUSED, SHORT_BUFFER, outcome_number, told_number,
};
use replies::ShortBuffer;
use replies::due::{request_of, told_of};
use types::requests::{Refusal, Request};
use types::settings::Settings;

mod answer;
mod asked;
mod steps;

// The bytes of an answer.
const ANSWER_LENGTH: usize = 64;

// Why nothing is done of a call.
#[derive(Clone, Copy)]
enum CallRefusal {
    Image(ImageRefusal),
    Settings,
    ShortBuffer,
    LongBlock,
}

fn refusal_number(n: CallRefusal) -> u8
    ensures { result ≡ refusal_number n }
{
    match n {
        CallRefusal::Image(image) => image_number(image),
        CallRefusal::Settings => SETTINGS_REFUSED,
        CallRefusal::ShortBuffer => SHORT_BUFFER,
        CallRefusal::LongBlock => LONG_BLOCK,
    }
}

// What C is told.
fn told(r: Result<u8, CallRefusal>) -> u32
    ensures { result ≡ told_by r }
{
    match r {
        Ok(n) => u32::from(n),
        Err(n) => u32::from(refusal_number(n)),
    }
}

// The same of a call that asks nothing of its ticks.
fn done(r: Result<(), CallRefusal>) -> u32
    ensures { result ≡ done_number r }
{
    match r {
        Ok(()) => 0,
        Err(n) => u32::from(refusal_number(n)),
    }
}

// A wrong length comes first; a: of the settings, b: of the state.
#[tactic(auto, unfolding(crate::specs::Board::images_refusal))]
fn images_refusal(
    a: Result<(), ImageRefusal>,
    b: Result<(), ImageRefusal>,
) -> Result<(), ImageRefusal>
    ensures { bytes_number result ≡ images_refusal (bytes_number a) (bytes_number b) }
{
    if matches!(b, Err(ImageRefusal::WrongLength)) {
        return b;
    }
    a.and(b)
}

// What both images are refused with for their lengths and bytes; `bytes` is what the state's is.
fn first_refusal(settings: &[u8], bytes: Result<(), ImageRefusal>) -> Result<(), CallRefusal>
    ensures { done_number result ≡ images_refusal (given_in settings.now).refusal (bytes_number bytes) }
{
    images_refusal(given_refusal(settings), bytes).map_err(CallRefusal::Image)
}

#[inline(never)]
fn opened(settings: &[u8]) -> Result<Settings, CallRefusal>
    ensures number { length settings.now ≡ given_length → opened_number result ≡ opening_number (open_of (given_by settings.now)) }
    ensures settings { length settings.now ≡ given_length → IfOk result (λ s. s ≡ settings_by settings.now) }
{
    opening::open(given_at(settings)).ok_or(CallRefusal::Settings)
}

// Whether both images of a call are ones; the state's buffer is refused for its bytes with `bytes`. What then is left to refuse is the
// settings, which `opened` tells: it is a call of its own, so that a test of a state and an opening are not on the stack at once.
fn judged(settings: &[u8], bytes: Result<(), ImageRefusal>, image: &[u8]) -> Result<(), CallRefusal>
    requires { bytes_number bytes ≡ 0 → is_image (length image.now) ≡ true }
    ensures number { MatchResult result
        (λ u. LeftToOpen settings.now (bytes_number bytes) image.now)
        (λ n. refusal_number n ≡ judged_number settings.now (bytes_number bytes) image.now) }
    ensures bytes { Bytes image.now }
{
    first_refusal(settings, bytes)?;
    if !is_possible(settings, image) {
        return Err(CallRefusal::Image(ImageRefusal::Impossible));
    }
    Ok(())
}

#[tactic(auto, unfolding(crate::specs::Board::length_refusal))]
fn length_refusal(n: usize) -> Result<(), ImageRefusal>
    ensures { bytes_number result ≡ length_refusal n }
{
    if n == STATE_LENGTH {
        return Ok(());
    }
    Err(ImageRefusal::WrongLength)
}

fn open(settings: &[u8], state: &mut [u8]) -> Result<(), CallRefusal>
    ensures told { done_number result ≡ open_answer settings.now (length state.old) }
    ensures image { state.new ≡ open_image settings.now state.old }
{
    first_refusal(settings, length_refusal(state.len()))?;
    opened(settings)?;
    // every byte of the opening state's image is 0
    places::clear(state);
    Ok(())
}

// The opening: fills the state image. What its bytes were is not asked.
pub fn pressgully_open(settings: &[u8], state: &mut [u8]) -> u32
    ensures told { result ≡ open_answer settings.now (length state.old) }
    ensures image { state.new ≡ open_image settings.now state.old }
{
    done(open(settings, state))
}

// The parts of an earlier image into a state's buffer, in two: what is weighed, and what is batched. What waits is in neither.
fn put_weighed(earlier: &[u8], state: &mut [u8])
    ensures { length earlier.now ≡ earlier_length → Turns state.old state.new (λ (st : State).
        let e = state_at earlier.now in
        with_panel (with_weighing (with_stability (with_book st e.book) e.stability) e.weighing) e.panel) }
{
    put_book(state, book_at(earlier));
    put_stability(state, stability_at(earlier));
    put_weighing(state, weighing_at(earlier));
    put_panel(state, panel_at(earlier));
}

fn put_batched(earlier: &[u8], state: &mut [u8])
    ensures { length earlier.now ≡ earlier_length → Turns state.old state.new (λ (st : State).
        let e = state_at earlier.now in
        with_totals (with_sequence (with_setpoints st e.setpoints) e.sequence) e.totals) }
{
    put_setpoints(state, setpoints_at(earlier));
    put_sequence(state, sequence_at(earlier));
    put_totals(state, totals_at(earlier));
}

fn grow(settings: &[u8], earlier: &[u8], state: &mut [u8]) -> Result<(), CallRefusal>
    ensures told { done_number result ≡ grow_answer settings.now earlier.now (length state.old) }
    ensures image { state.new ≡ grow_image settings.now earlier.now state.old }
{
    let bytes = images_refusal(length_refusal(state.len()), earlier_refusal(earlier));
    judged(settings, bytes, earlier)?;
    opened(settings)?;
    // in the opening state, all bytes 0, nothing waits
    places::clear(state);
    put_weighed(earlier, state);
    put_batched(earlier, state);
    Ok(())
}

// Makes the present image of an earlier one. What the bytes of the state's buffer were is not asked.
pub fn pressgully_grow(settings: &[u8], earlier: &[u8], state: &mut [u8]) -> u32
    ensures told { result ≡ grow_answer settings.now earlier.now (length state.old) }
    ensures image { state.new ≡ grow_image settings.now earlier.now state.old }
{
    done(grow(settings, earlier, state))
}

// The number of a tick's answer; 13 where it was asked by a number that is no request.
fn asked_number(asked: Result<Option<Request>, NoRequest>, outcome: Result<(), Refusal>) -> u8
    ensures { result ≡ cond (is_known asked) (outcome_number outcome) 13 }
{
    match asked {
        Ok(_) => outcome_number(outcome),
        Err(NoRequest) => NO_REQUEST,
    }
}

// The tick of a buffer that holds a state, in the outline's order.
fn run_tick(
    s: Settings,
    count: i32,
    contact: bool,
    asked: Result<Option<Request>, NoRequest>,
    state: &mut [u8],
    answer: &mut [u8],
) -> Result<u8, CallRefusal>
    ensures told { Tells state.old (λ (st : State).
        let a = tick_of s st (input_of count contact (request_in asked)) in
        told_by result ≡ room_answer (told_of (is_known asked) a) answer.old) }
    ensures image { Tells state.old (λ (st : State).
        let a = tick_of s st (input_of count contact (request_in asked)) in
        state.new ≡ room_image a.state state.old answer.old) }
    ensures outputs { Tells state.old (λ (st : State).
        let a = tick_of s st (input_of count contact (request_in asked)) in
        answer.new ≡ room_buffer (told_of (is_known asked) a) 0 a.answer answer.old) }
{
    if answer.len() < ANSWER_LENGTH {
        return Err(CallRefusal::ShortBuffer);
    }
    let request = asked.unwrap_or(None);
    // 1. to 3. Raw, day book, weights.
    let mut x = steps::enter(s, count, contact, state);
    // 4. The tick's request, and the weights again, with the zero and the tare that it leaves.
    let outcome = steps::ruled(s, x, request, state);
    let done = requests::granted(outcome, request);
    steps::settle(done, x, state, answer);
    steps::settle_batch(done, state);
    x = steps::again(s, x, state);
    // 5. Tracking.
    steps::track(s, steps::is_keyed(done), x, state);
    // 6. Sequence, passed over after an accepted start or discharge, or a stop.
    steps::step(s, steps::is_held(done), x, state);
    let n = asked_number(asked, outcome);
    steps::answer(s, outcome, n, 0, x, state, answer);
    Ok(n)
}

fn tick(
    settings: &[u8],
    state: &mut [u8],
    count: i32,
    contact: bool,
    request: u32,
    points: &[u32],
    answer: &mut [u8],
) -> Result<u8, CallRefusal>
    ensures told { told_by result ≡ tick_answer settings.now state.old count contact request points.now answer.old }
    ensures image { state.new
        ≡ tick_image settings.now state.old count contact request points.now answer.old }
    ensures outputs { answer.new
        ≡ tick_buffer settings.now state.old count contact request points.now answer.old }
{
    judged(settings, bytes_refusal(state), state)?;
    let s = opened(settings)?;
    run_tick(s, count, contact, asked(request, points), state, answer)
}

// One tick, asked by a number.
pub fn pressgully_tick(
    settings: &[u8],
    state: &mut [u8],
    count: i32,
    contact: bool,
    request: u32,
    points: &[u32],
    answer: &mut [u8],
) -> u32
    ensures told { result ≡ tick_answer settings.now state.old count contact request points.now answer.old }
    ensures image { state.new
        ≡ tick_image settings.now state.old count contact request points.now answer.old }
    ensures outputs { answer.new
        ≡ tick_buffer settings.now state.old count contact request points.now answer.old }
{
    told(tick(settings, state, count, contact, request, points, answer))
}

// The tick with a line, in the same order. The reply is written after the ruling, before anything is done: a read changes nothing in step
// 4, so that what stands before it is what step 4 leaves.
fn run_line(
    s: Settings,
    count: i32,
    contact: bool,
    receive: &[u8],
    reply: &mut [u8],
    state: &mut [u8],
    answer: &mut [u8],
) -> Result<u8, CallRefusal>
    ensures told { Tells state.old (λ (st : State).
        let a = line_tick_of s st count contact receive.now reply.old in
        told_by result ≡ room_answer (told_number a.told) answer.old) }
    ensures image { Tells state.old (λ (st : State).
        let a = line_tick_of s st count contact receive.now reply.old in
        state.new ≡ room_image a.state state.old answer.old) }
    ensures replied { Tells state.old (λ (st : State).
        let text = reply_buffer s st count contact receive.now reply.old in
        reply.new ≡ if_room answer.old text reply.old) }
    ensures outputs { Tells state.old (λ (st : State).
        let a = line_tick_of s st count contact receive.now reply.old in
        answer.new ≡ room_buffer (told_number a.told) a.length a.answer answer.old) }
{
    if answer.len() < ANSWER_LENGTH {
        return Err(CallRefusal::ShortBuffer);
    }
    let command = command_of(receive, s.address);
    let request = request_of(command);
    // 1. to 3. Raw, day book, weights.
    let mut x = steps::enter(s, count, contact, state);
    let outcome = steps::ruled(s, x, request, state);
    match steps::reply(s, command, outcome, x, state, reply) {
        Ok(length) => {
            // 4. The line's request.
            let done = requests::granted(outcome, request);
            steps::settle(done, x, state, answer);
            steps::settle_batch(done, state);
            x = steps::again(s, x, state);
            // 5. Tracking.
            steps::track(s, steps::is_keyed(done), x, state);
            // 6. Sequence.
            steps::step(s, steps::is_held(done), x, state);
            let n = told_number(told_of(command, outcome));
            steps::answer(s, outcome, n, length, x, state, answer);
            Ok(n)
        }
        Err(ShortBuffer) => {
            // The reply does not fit: a tick without a request.
            put_closed(answer, None);
            steps::track(s, false, x, state);
            steps::step(s, false, x, state);
            steps::answer(s, Ok(()), SHORT_BUFFER, 0, x, state, answer);
            Ok(SHORT_BUFFER)
        }
    }
}

fn line(
    settings: &[u8],
    state: &mut [u8],
    count: i32,
    contact: bool,
    receive: &[u8],
    reply: &mut [u8],
    answer: &mut [u8],
) -> Result<u8, CallRefusal>
    ensures told { told_by result ≡ line_answer settings.now state.old count contact receive.now reply.old
        answer.old }
    ensures image { state.new
        ≡ line_image settings.now state.old count contact receive.now reply.old
        answer.old }
    ensures replied { reply.new
        ≡ line_reply settings.now state.old count contact receive.now reply.old
        answer.old }
    ensures outputs { answer.new
        ≡ line_buffer settings.now state.old count contact receive.now reply.old
        answer.old }
{
    judged(settings, bytes_refusal(state), state)?;
    let s = opened(settings)?;
    run_line(s, count, contact, receive, reply, state, answer)
}

// One tick with a receive buffer, whose line it obeys. The reply's length stands in the answer.
pub fn pressgully_line(
    settings: &[u8],
    state: &mut [u8],
    count: i32,
    contact: bool,
    receive: &[u8],
    reply: &mut [u8],
    answer: &mut [u8],
) -> u32
    ensures told { result ≡ line_answer settings.now state.old count contact receive.now reply.old
        answer.old }
    ensures image { state.new
        ≡ line_image settings.now state.old count contact receive.now reply.old
        answer.old }
    ensures replied { reply.new
        ≡ line_reply settings.now state.old count contact receive.now reply.old
        answer.old }
    ensures outputs { answer.new
        ≡ line_buffer settings.now state.old count contact receive.now reply.old
        answer.old }
{
    told(line(settings, state, count, contact, receive, reply, answer))
}

// The counts of a block, one tick after the other, in the buffer of the state.
fn run_block(
    s: Settings,
    counts: &[i32],
    contact: bool,
    state: &mut [u8],
) -> Result<(), CallRefusal>
    ensures told { Tells state.old (λ (st : State).
        done_number result ≡ block_number (block_of s st counts.now contact).answer) }
    ensures image { Tells state.old (λ (st : State).
        state.new ≡ image_of (block_of s st counts.now contact).state) }
{
    if BLOCK_LIMIT < counts.len() {
        return Err(CallRefusal::LongBlock);
    }
    for &count in counts {
        let x = steps::enter(s, count, contact, state);
        steps::track(s, false, x, state);
        steps::step(s, false, x, state);
    }
    Ok(())
}

fn block(
    settings: &[u8],
    state: &mut [u8],
    counts: &[i32],
    contact: bool,
) -> Result<(), CallRefusal>
    ensures told { done_number result ≡ block_answer settings.now state.old counts.now contact }
    ensures image { state.new ≡ block_image settings.now state.old counts.now contact }
{
    judged(settings, bytes_refusal(state), state)?;
    let s = opened(settings)?;
    run_block(s, counts, contact, state)
}

// A block of counts, one tick each, with one contact and no requests.
pub fn pressgully_block(settings: &[u8], state: &mut [u8], counts: &[i32], contact: bool) -> u32
    ensures told { result ≡ block_answer settings.now state.old counts.now contact }
    ensures image { state.new ≡ block_image settings.now state.old counts.now contact }
{
    done(block(settings, state, counts, contact))
}

// Demand 3 for images. It does nothing: it stands here so that the check's list names the statements, and misses them if a proof goes.
pub fn every_call()
    ensures ticks { CallsAreTicks }
    ensures opens { OpensARun }
    ensures runs { CallsAreRuns }
    ensures grows { GrowsPass }
    ensures grows_a_run { GrowsARun }
    ensures grows_earlier { GrowsEarlier }
    ensures length { LengthTold }
{}
