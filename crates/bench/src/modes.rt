// The four modes: each takes the counts of a block, from one state of the run to the next. What a tick puts out is looked at in every mode
// but the first, whose ticks have no outputs: an output that nobody looks at would not be worked out.
use crate::digest::{Seen, looked, looked_at_line};
use controller::block::run_block;
use controller::tick;
use controller::unasked::unasked_tick;
use serial::line_tick;
use types::machine::{Input, State};
use types::requests::Request;
use types::settings::Settings;
use types::stages::Setpoints;

const LINES: usize = 16;

const LINE_BYTES: usize = 64;

#[derive(Clone, Copy)]
pub(crate) struct Run {
    pub state: State,
    pub seen: Seen,
    pub ticks: u64,
}

fn more(ticks: u64, n: usize) -> u64 {
    ticks.wrapping_add(n as u64)
}

// The tick between two blocks.
fn between(s: Settings, st: State, request: Option<Request>, contact: bool) -> State {
    let ticked = tick(
        s,
        st,
        Input {
            count: 0,
            contact,
            request,
        },
    );
    ticked.state
}

pub(crate) fn block_ticks(
    s: Settings,
    run: Run,
    request: Option<Request>,
    counts: &[i32],
    contact: bool,
) -> Run {
    let done = run_block(s, between(s, run.state, request, contact), counts, contact);
    Run {
        state: done.state,
        seen: run.seen,
        ticks: more(more(run.ticks, 1), counts.len()),
    }
}

pub(crate) fn unasked_ticks(
    s: Settings,
    run: Run,
    request: Option<Request>,
    counts: &[i32],
    contact: bool,
) -> Run {
    let mut state = between(s, run.state, request, contact);
    let mut seen = run.seen;
    for &count in counts {
        let ticked = unasked_tick(s, state, count, contact);
        state = ticked.state;
        seen = looked(seen, ticked.answer);
    }
    Run {
        state,
        seen,
        ticks: more(more(run.ticks, 1), counts.len()),
    }
}

// The requests in turn.
fn request_of(i: usize, points: Setpoints) -> Option<Request> {
    match i % 11 {
        0 => Some(Request::TareClear),
        1 => Some(Request::ShowNet),
        2 => Some(Request::ShowGross),
        3 => Some(Request::Set(points)),
        4 => Some(Request::Start),
        5 => Some(Request::Stop),
        6 => Some(Request::TotalClear),
        7 => Some(Request::Undo),
        8 => Some(Request::DayClose),
        9 => Some(Request::Zero),
        _ => Some(Request::Tare),
    }
}

pub(crate) fn asked_ticks(
    s: Settings,
    run: Run,
    points: Setpoints,
    counts: &[i32],
    contact: bool,
) -> Run {
    let mut state = run.state;
    let mut seen = run.seen;
    for (i, &count) in counts.iter().enumerate() {
        let ticked = tick(
            s,
            state,
            Input {
                count,
                contact,
                request: request_of(i, points),
            },
        );
        state = ticked.state;
        seen = looked(seen, ticked.answer);
    }
    Run {
        state,
        seen,
        ticks: more(run.ticks, counts.len()),
    }
}

// The lines in turn; what is behind the CR LF is no part of a line.
fn line_of(lines: &[u8], i: usize) -> &[u8] {
    let from = i % LINES * LINE_BYTES;
    lines.get(from..from + LINE_BYTES).unwrap_or(&[])
}

pub(crate) fn line_ticks(
    s: Settings,
    run: Run,
    lines: &[u8],
    counts: &[i32],
    contact: bool,
    reply: &mut [u8],
) -> Run {
    let mut state = run.state;
    let mut seen = run.seen;
    for (i, &count) in counts.iter().enumerate() {
        let ticked = line_tick(s, state, count, contact, line_of(lines, i), reply);
        state = ticked.state;
        seen = looked_at_line(seen, ticked);
    }
    Run {
        state,
        seen,
        ticks: more(run.ticks, counts.len()),
    }
}
