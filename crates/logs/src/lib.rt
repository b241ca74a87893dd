// The lines of a log, `count contact request`: what stands in one, and whether it can be read at all. Every line is taken, of any bytes.
// The modules find the lines of an input among the bytes held, run the tick of each, and write what the ticket program prints.
#![tactic(auto)]

ghost use Rattle.std.specs.Prelude.{◌≡◌};
ghost use Rattle.outline.specs.Log.{is_contact, is_rest, log_line_of, is_none};

use commands::line::byte_at;
use types::log::LogLine;

pub mod numerals;
mod pairs;
pub mod pieces;
pub mod reader;
pub mod tickets;
pub mod ticks;

// The most bytes of a request.
const REQUEST_LIMIT: usize = 100;

// The bytes between a count and its request: a space, the contact, a space.
const GAP: usize = 3;

// The most bytes behind a count.
const REST_LIMIT: usize = GAP + REQUEST_LIMIT;

fn is_contact(b: u8) -> bool
    ensures { result ≡ is_contact b }
{
    matches!(b, b'0' | b'1')
}

// What stands behind the count: a space, the contact, a space, a request.
fn is_rest(rest: &[u8]) -> bool
    ensures { result ≡ is_rest rest.now 0 }
{
    byte_at(rest, 0) == b' '
        && is_contact(byte_at(rest, 1))
        && byte_at(rest, 2) == b' '
        && GAP < rest.len()
        && rest.len() <= REST_LIMIT
}

// What a line says, where it can be read. The count tells where the rest begins, so it is read first.
#[tactic(auto, unfolding(outline::specs::Log::log_line_of))]
fn log_line(line: &[u8]) -> Option<LogLine>
    ensures { result ≡ log_line_of line.now }
{
    let count = numerals::number_at(line, 0)?;
    let rest = pieces::part(line, count.end, line.len());
    if !is_rest(rest) {
        return None;
    }
    Some(LogLine {
        count: count.value,
        contact: byte_at(rest, 1) == b'1',
        request: count.end + GAP,
    })
}

// `--` asks for nothing.
#[tactic(auto, unfolding(outline::specs::Log::is_none))]
fn is_none(request: &[u8]) -> bool
    ensures { result ≡ is_none request.now }
{
    matches!(request, [b'-', b'-'])
}
