// One number of a state, and one of all outputs, that others hardly have.
use types::analog::Analog;
use types::daybook::Book;
use types::lines::LineTick;
use types::machine::{Answer, Reading, State};
use types::stages::{Gates, Totals};
use types::weight::Weighing;

const MODULUS: u64 = 4_294_967_291;

fn mixed(h: u64, x: u64) -> u64 {
    ((h % MODULUS) * 65_599 + x % MODULUS) % MODULUS
}

// A number and its sign.
fn signed(h: u64, x: i64) -> u64 {
    if x < 0 {
        return mixed(mixed(h, 1), x.unsigned_abs());
    }
    mixed(h, x.unsigned_abs())
}

fn narrow(h: u64, x: i32) -> u64 {
    signed(h, i64::from(x))
}

fn of_book(h: u64, b: Book) -> u64 {
    let raws = narrow(narrow(h, b.opening), b.last);
    let sums = signed(signed(signed(raws, b.refilled), b.used), b.unbooked);
    mixed(sums, u64::from(b.ticks))
}

fn of_weighing(h: u64, w: Weighing) -> u64 {
    let zero = narrow(narrow(h, w.zero), w.tracked);
    mixed(narrow(zero, w.tare), u64::from(w.counter))
}

fn of_totals(h: u64, t: Totals) -> u64 {
    mixed(mixed(h, t.total), u64::from(t.count))
}

pub(crate) fn of_state(st: State) -> u64 {
    let parts = of_totals(of_weighing(of_book(0, st.book), st.weighing), st.totals);
    mixed(
        mixed(parts, u64::from(st.sequence.clock)),
        u64::from(st.stability.run),
    )
}

// The outputs of all ticks so far, each folded in by a step or two. Stage, judgement and error are parts of the state too.
#[derive(Clone, Copy, Default)]
pub(crate) struct Seen {
    pub gross: i32,
    pub net: i32,
    pub flags: u32,
    // bytes of replies
    pub replied: usize,
}

fn bit(set: bool, b: u32) -> u32 {
    if set { b } else { 0 }
}

fn reading_bits(x: Reading) -> u32 {
    bit(x.good, 1) | bit(x.overload, 2) | bit(x.stable, 4)
}

fn gate_bits(g: Gates) -> u32 {
    bit(g.large, 8) | bit(g.medium, 16) | bit(g.small, 32) | bit(g.discharge, 64)
}

fn is_high(a: Option<Analog>) -> bool {
    match a {
        None => false,
        Some(Analog::Current(x) | Analog::Voltage(x)) => 5.0 < x,
    }
}

// The opening of a day that was closed.
fn closed_opening(closed: Option<Book>) -> i32 {
    closed.map_or(0, |book| book.opening)
}

fn signal_bits(a: Answer) -> u32 {
    bit(a.near, 128)
        | bit(a.full, 256)
        | bit(is_high(a.analog), 512)
        | bit(a.outcome.is_err(), 1024)
}

pub(crate) fn looked(seen: Seen, a: Answer) -> Seen {
    let x = a.reading;
    Seen {
        gross: seen.gross ^ x.gross ^ closed_opening(a.closed),
        net: seen.net ^ x.net,
        flags: seen.flags ^ reading_bits(x) ^ gate_bits(a.gates) ^ signal_bits(a),
        replied: seen.replied,
    }
}

pub(crate) fn looked_at_line(seen: Seen, t: LineTick) -> Seen {
    let mut now = looked(seen, t.answer);
    now.flags ^= bit(t.told.is_ok(), 2048);
    now.replied ^= t.length;
    now
}

// The reply's bytes are looked at once, behind the last tick: which of them a tick writes is known only as it runs.
pub(crate) fn of_outputs(seen: Seen, reply: &[u8]) -> u64 {
    let weights = narrow(narrow(0, seen.gross), seen.net);
    let flags = mixed(weights, u64::from(seen.flags));
    reply
        .iter()
        .fold(mixed(flags, seen.replied as u64), |h, &byte| {
            mixed(h, u64::from(byte))
        })
}
