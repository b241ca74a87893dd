// What each command asks of its tick, what reply is due to it, and what it is told. Nothing is written here: whether the reply fits a
// buffer is asked by others.
ghost use Rattle.std.specs.Prelude.{◌≡◌, Some, Result, Err};
ghost use Rattle.outline.specs.Replies.{word_request, request_of, request_reply, word_reply, reply_due, told_of};

use crate::shown::shown_of;
use commands::letters::{SET_LETTERS, letters_for};
use numbers::told_number;
use setpoints::waiting::latest;
use types::lines::{LineFault, LineRefusal, Order, Reply, Word};
use types::machine::{Reading, State};
use types::requests::{Refusal, Request};

// The three reads ask nothing of the tick: they are answered from what it shows.
fn word_request(w: Word) -> Option<Request>
    ensures { result ≡ word_request w }
{
    match w {
        Word::ReadWeight => None,
        Word::ReadTotal => None,
        Word::ReadSetpoints => None,
        Word::Zero => Some(Request::Zero),
        Word::Tare => Some(Request::Tare),
        Word::TareClear => Some(Request::TareClear),
        Word::ShowGross => Some(Request::ShowGross),
        Word::ShowNet => Some(Request::ShowNet),
        Word::Start => Some(Request::Start),
        Word::Stop => Some(Request::Stop),
        Word::TotalClear => Some(Request::TotalClear),
        Word::Undo => Some(Request::Undo),
        Word::DayClose => Some(Request::DayClose),
        Word::Discharge => Some(Request::Discharge),
    }
}

// A line that is refused asks for nothing, so that its tick runs as one without a request.
#[tactic(auto, unfolding(outline::specs::Replies::request_of))]
pub fn request_of(c: Result<Order, LineFault>) -> Option<Request>
    ensures { result ≡ request_of c }
{
    match c {
        Ok(Order::Do(w)) => word_request(w),
        Ok(Order::Set(p)) => Some(Request::Set(p)),
        Err(_) => None,
    }
}

fn request_reply(letters: u16, o: Result<(), Refusal>) -> Reply
    ensures { Some result ≡ request_reply letters o }
{
    match o {
        Ok(()) => Reply::Letters(letters),
        Err(n) => Reply::Refused(numbers::refusal_number(n)),
    }
}

// A read shows the state; another word is replied by how it was settled.
fn word_reply(w: Word, st: State, x: Reading, o: Result<(), Refusal>) -> Reply
    ensures { Some result ≡ word_reply w st x o }
{
    match w {
        Word::ReadWeight => Reply::Weight(shown_of(st.panel.display, x)),
        Word::ReadTotal => Reply::Total(st.totals.total, st.totals.count),
        Word::ReadSetpoints => Reply::Points(latest(st.setpoints, st.waiting)),
        _ => request_reply(letters_for(w), o),
    }
}

// The reply due to a line, from the state as step 4 leaves it and the tick's reading and outcome. Who did not speak to this address, or
// sent no line that can be told from noise, hears nothing.
#[tactic(auto, unfolding(outline::specs::Replies::reply_due))]
pub fn reply_due(
    c: Result<Order, LineFault>,
    st: State,
    x: Reading,
    o: Result<(), Refusal>,
) -> Option<Reply>
    ensures { result ≡ reply_due c st x o }
{
    match c {
        Ok(Order::Do(w)) => Some(word_reply(w, st, x, o)),
        Ok(Order::Set(_)) => Some(request_reply(SET_LETTERS, o)),
        Err(LineFault::NoLine | LineFault::LongLine | LineFault::OtherAddress) => None,
        Err(LineFault::Malformed) => Some(Reply::Refused(told_number(Err(LineRefusal::Malformed)))),
        Err(LineFault::Unknown) => Some(Reply::Refused(told_number(Err(LineRefusal::Unknown)))),
    }
}

// What a line is told that asks for nothing, whatever its tick answers.
#[tactic(auto, unfolding(outline::specs::Replies::told_of))]
fn refusal_of(fault: LineFault) -> LineRefusal
    ensures { (o : Result (Unit {0}) Refusal) → Err result ≡ told_of (Err fault) o }
{
    match fault {
        LineFault::OtherAddress => LineRefusal::OtherAddress,
        LineFault::Unknown => LineRefusal::Unknown,
        LineFault::NoLine | LineFault::LongLine | LineFault::Malformed => LineRefusal::Malformed,
    }
}

// What a line is told, where the reply due to it fits. Only a line that was understood is answered by the tick's outcome.
#[tactic(auto, unfolding(outline::specs::Replies::told_of))]
pub fn told_of(c: Result<Order, LineFault>, o: Result<(), Refusal>) -> Result<(), LineRefusal>
    ensures { result ≡ told_of c o }
{
    c.map_err(refusal_of)?;
    o.map_err(LineRefusal::Request)
}
