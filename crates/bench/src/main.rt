// The controller's benchmark: what a tick costs, not whether it is right. Its input picks one of four modes and has every number that the
// controller is given (input.rt), so that neither this compiler nor the peer's knows any of them. At the end it prints the ticks
// done, a digest of the last state, and one of all outputs, which the peer's side (peer/bench.c) must print too.
//
// A round is three blocks of counts. Before a block the modes 1 and 2 have a tick with a request: the setpoints, a start, a stop.
#![tactic(auto)]

use crate::digest::Seen;
use crate::input::{Head, Mode};
use crate::modes::{Run, asked_ticks, block_ticks, line_ticks, unasked_ticks};
use controller::opening::{open, open_state};
use std::io::{self, Read};
use types::requests::Request;
use types::settings::Settings;

mod digest;
mod input;
mod modes;

// The bytes of the input that are read.
const SPACE_BYTES: u64 = 65_536;

fn print(rt: &impl Print, name: &str, n: u64) -> io::Result<()> {
    println!(rt; "{name}{n}")
}

// Each mode takes the first count once before anything is measured. So the state that a mode begins with is no constant to the
// compiler; and a function that is called from here and from `turned` is compiled on its own, which the stack is read off.
fn started(s: Settings, head: Head, bytes: &[u8], reply: &mut [u8]) -> Run {
    let first = [head.first];
    let points = head.points;
    let contact = head.contact;
    let run = Run {
        state: open_state(s),
        seen: Seen::default(),
        ticks: 0,
    };
    let run = block_ticks(s, run, Some(Request::Set(points)), &first, contact);
    let run = unasked_ticks(s, run, Some(Request::Start), &first, contact);
    let run = asked_ticks(s, run, points, &first, contact);
    line_ticks(s, run, input::lines(bytes), &first, contact, reply)
}

// One block in the mode that is asked for. Before it the modes 1 and 2 have a tick with the request.
fn turned(
    s: Settings,
    run: Run,
    head: Head,
    request: Request,
    bytes: &[u8],
    counts: &[i32],
    reply: &mut [u8],
) -> Run {
    let contact = head.contact;
    match head.mode {
        Mode::Block => block_ticks(s, run, Some(request), counts, contact),
        Mode::Unasked => unasked_ticks(s, run, Some(request), counts, contact),
        Mode::Asked => asked_ticks(s, run, head.points, counts, contact),
        Mode::Line => line_ticks(s, run, input::lines(bytes), counts, contact, reply),
    }
}

fn run_rounds(
    rt: &impl Print,
    s: Settings,
    head: Head,
    bytes: &[u8],
    counts: &[i32],
) -> io::Result<()> {
    let mut reply = [0u8; 64];
    let mut run = started(s, head, bytes, &mut reply);
    let requests = [Request::Set(head.points), Request::Start, Request::Stop];
    for _ in 0..head.rounds {
        for (i, &request) in requests.iter().enumerate() {
            let block = input::block(counts, i);
            run = turned(s, run, head, request, bytes, block, &mut reply);
        }
    }
    print(rt, "ticks=", run.ticks)?;
    print(rt, "digest=", digest::of_state(run.state))?;
    print(rt, "outputs=", digest::of_outputs(run.seen, &reply))
}

fn run_all(rt: &impl Print, s: Settings, bytes: &[u8]) -> io::Result<()> {
    let mut counts = [0i32; input::COUNTS];
    input::fill(bytes, &mut counts);
    let given = input::first_counts(&counts, input::counts_in(bytes));
    run_rounds(rt, s, input::head_of(bytes), bytes, given)
}

fn main(rt: HostRuntime) -> io::Result<()> {
    let mut space = Vec::new(rt.alloc());
    rt.reader().take(SPACE_BYTES).read_to_end(&mut space)?;
    let bytes = space.as_slice();
    match open(input::given(bytes)) {
        Some(s) => run_all(&rt, s, bytes),
        None => print(&rt, "refused=", 10),
    }
}
