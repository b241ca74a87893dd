// The replay program: a recorded log under given settings, with every output of every tick.
//
// Standard input: a first line of 25 whole numbers, the settings, then a line `count contact request` for each tick. Standard output:
// `answer=` and the number of the opening, then a line of key=value pairs for each tick. The first argument, 0 to 64, is the
// length of the reply buffer (64 without it).
#![tactic(auto)]

use crate::given::{given_line, number_of};
use crate::input::{first_line, next_line};
use crate::text::Output;
use controller::opening::{open, open_state};
use logs::pieces::part;
use logs::reader::request_in;
use logs::ticks::request_tick;
use std::env::{Env, FillError};
use std::io::{self, Read};
use types::log::Line;
use types::settings::{Given, Settings};

mod given;
mod input;
mod printout;
mod text;

// The bytes that are held at a time, of the log and of the output.
const SPACE_BYTES: usize = 65_536;

// The longest reply buffer.
const REPLY_LIMIT: usize = 64;

// The ticks, from the line behind `first` on. A proved loop has to end, and nothing says that the input does: so the ticks are counted,
// up to a number that no run reaches.
fn run_ticks(
    rt: &impl Print,
    input: &mut impl Read,
    s: Settings,
    first: Line,
    space: &mut [u8],
    reply: &mut [u8],
) -> io::Result<()> {
    let mut buffer = [0u8; SPACE_BYTES];
    let mut out = Output::new(&mut buffer).opened();
    let mut state = open_state(s);
    let mut line = next_line(input, space, first)?;
    for _ in 0..u64::MAX {
        let Some(said) = line.said else {
            break;
        };
        let request = request_in(space, line);
        let t = request_tick(s, state, said.count, said.contact, request, reply);
        out = out.tick(rt, t, reply)?;
        state = t.state;
        line = next_line(input, space, line)?;
    }
    // A line is there and could not be read, or the log has ended.
    if line.here {
        out = out.refused(rt, line.number)?;
    }
    out.written(rt)?;
    Ok(())
}

// Tells the opening's answer; under accepted settings the ticks run.
fn opened(
    rt: &impl Print,
    input: &mut impl Read,
    g: Given,
    first: Line,
    space: &mut [u8],
    reply: &mut [u8],
) -> io::Result<()> {
    match open(g) {
        Some(s) => run_ticks(rt, input, s, first, space, reply),
        None => rt.write_all(b"answer=10\n"),
    }
}

fn read_settings(
    rt: &impl Print,
    input: &mut impl Read,
    space: &mut [u8],
    reply: &mut [u8],
) -> io::Result<()> {
    let first = first_line(input, space)?;
    match given_line(part(space, first.from, first.end)) {
        Some(g) => opened(rt, input, g, first, space, reply),
        None => rt.write_all(b"refused=1\n"),
    }
}

fn read_log(rt: &(impl Input + Print), room: usize) -> io::Result<()> {
    let mut input = rt.reader();
    let mut space = [0u8; SPACE_BYTES];
    let mut reply = [0u8; REPLY_LIMIT];
    read_settings(
        rt,
        &mut input,
        &mut space,
        &mut reply[..room.min(REPLY_LIMIT)],
    )
}

// The length of the reply buffer that a word says.
fn room_of(word: &[u8]) -> Option<usize> {
    let bytes = usize::try_from(number_of(word)?).ok()?;
    if bytes <= REPLY_LIMIT {
        Some(bytes)
    } else {
        None
    }
}

// The length of the reply buffer, by the first argument where there is one.
fn asked(env: &impl Env) -> Option<usize> {
    let mut word = [0u8; 16];
    match env.arg(1, &mut word) {
        Ok(n) => room_of(&word[..n]),
        Err(FillError::NotPresent) => Some(REPLY_LIMIT),
        Err(FillError::TooLong) => None,
    }
}

fn main(rt: HostRuntime) -> io::Result<()> {
    match asked(&rt) {
        Some(room) => read_log(&rt, room),
        None => rt.eprintln("replay: the length of the reply buffer is 0 to 64"),
    }
}
