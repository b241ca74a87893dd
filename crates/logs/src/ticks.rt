// The tick of one line of a log: its count and contact, with its request given as a receive buffer would hold it.
ghost use Rattle.std.specs.Prelude.{◌≡◌, ◌+◌, ◌≤◌, length, take};
ghost use Rattle.outline.specs.Log.{with_cr_lf, request_tick, request_buffer};

use types::lines::LineTick;
use types::machine::State;
use types::settings::Settings;

const END_BYTES: usize = 2;

// Room for the longest request and its CR LF.
const RECEIVE_BYTES: usize = crate::REQUEST_LIMIT + END_BYTES;

// The command and CR LF, at the start of the receive buffer; the answer is the count of these bytes.
fn put_received(receive: &mut [u8], command: &[u8]) -> usize
    requires { length command.now + 2 ≤ length receive.old }
    ensures count { result ≡ length command.now + 2 }
    ensures bytes { take (length command.now + 2) receive.new ≡ with_cr_lf command.now }
{
    let n = command.len();
    receive[..n].copy_from_slice(command);
    receive[n] = b'\r';
    receive[n + 1] = b'\n';
    n + END_BYTES
}

// Any request but none is a serial command, even one that the controller won't know: it comes as it would from the line, with CR LF.
#[tactic(auto, unfolding(outline::specs::Log::request_tick, outline::specs::Log::request_buffer))]
pub fn request_tick(
    s: Settings,
    st: State,
    count: i32,
    contact: bool,
    request: &[u8],
    reply: &mut [u8],
) -> LineTick
    ensures answer { result ≡ request_tick s st count contact request.now reply.old }
    ensures bytes { reply.new ≡ request_buffer s st count contact request.now reply.old }
{
    if crate::is_none(request) {
        return serial::lineless_tick(s, st, count, contact);
    }
    let mut receive = [0u8; RECEIVE_BYTES];
    let command = crate::pieces::part(request, 0, crate::REQUEST_LIMIT);
    let n = put_received(&mut receive, command);
    serial::line_tick(s, st, count, contact, &receive[..n], reply)
}
