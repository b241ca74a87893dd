// The ticket program. It reads a log from standard input, a line `count contact request` for each tick, runs the controller under
// settings A of the outline, and prints a ticket at each accepted day close. At a line that can't be read it prints
// `refused=` and the line's number, and ends. It only reads, calls and writes: what is read, done and printed is promised by the calls.
#![tactic(auto)]

use crate::input::{first_line, next_line};
use controller::opening::{open, open_state};
use logs::pieces::part;
use logs::reader::request_in;
use logs::tickets::{settings_a, write_refused, write_ticket};
use logs::ticks::request_tick;
use std::io;
use types::log::Line;
use types::machine::{Answer, State};
use types::settings::Settings;

mod input;

// The bytes of the log that are held at a time.
const SPACE_BYTES: usize = 65_536;

// Room for the longest ticket.
const TICKET_BYTES: usize = 256;

// Room for the longest reply.
const REPLY_BYTES: usize = 64;

// A ticket where the tick closed a day, else nothing.
fn print_ticket(rt: &impl Print, out: &mut [u8], answer: Answer, state: State) -> io::Result<()> {
    let n = write_ticket(out, answer.closed, state.weighing, state.totals);
    rt.write_all(part(out, 0, n))
}

// A line is there and could not be read, or the log has ended.
fn print_end(rt: &impl Print, out: &mut [u8], line: Line) -> io::Result<()> {
    if !line.here {
        return Ok(());
    }
    let n = write_refused(out, line.number);
    rt.write_all(part(out, 0, n))
}

// A proved loop has to end, and nothing says that the input does: so the ticks are counted, up to a number that no run reaches.
fn read_log(rt: &(impl Input + Print), s: Settings) -> io::Result<()> {
    let mut input = rt.reader();
    let mut space = [0u8; SPACE_BYTES];
    let mut reply = [0u8; REPLY_BYTES];
    let mut out = [0u8; TICKET_BYTES];
    let mut state = open_state(s);
    let mut line = first_line(&mut input, &mut space)?;
    for _ in 0..u64::MAX {
        let Some(said) = line.said else {
            break;
        };
        let request = request_in(&space, line);
        let t = request_tick(s, state, said.count, said.contact, request, &mut reply);
        print_ticket(rt, &mut out, t.answer, t.state)?;
        state = t.state;
        line = next_line(&mut input, &mut space, line)?;
    }
    print_end(rt, &mut out, line)
}

fn main(rt: HostRuntime) -> io::Result<()> {
    match open(settings_a()) {
        Some(s) => read_log(&rt, s),
        None => Ok(()),
    }
}
