// What a receive buffer asks for: its prefix and its command. Every buffer is taken, of any bytes.
#![tactic(auto)]

ghost use Rattle.std.specs.Prelude.{◌≡◌};
ghost use Rattle.outline.specs.Lines.{is_prefixed, spoken_of, command_of};

use crate::line::byte_at;
use types::lines::{LineFault, LineKind, Order};

mod body;
pub mod digits;
mod fields;
pub mod letters;
pub mod line;
pub mod prefix;

// A line too short for a prefix has none, since a byte past its end is neither "@" nor a digit.
#[tactic(auto, unfolding(outline::specs::Lines::is_prefixed))]
fn is_prefixed(line: &[u8], address: u8) -> bool
    ensures { result ≡ is_prefixed line.now address }
{
    address == 0
        || (byte_at(line, 0) == b'@'
            && byte_at(line, 1) == b'0' + address / 10 % 10
            && byte_at(line, 2) == b'0' + address % 10)
}

// The prefix is looked at first: a line to another address is not read any further.
#[tactic(auto, unfolding(outline::specs::Lines::spoken_of))]
fn spoken(line: &[u8], address: u8) -> Result<Order, LineFault>
    ensures { result ≡ spoken_of line.now address }
{
    if is_prefixed(line, address) {
        body::body(line, prefix::prefix_length(address))
    } else {
        Err(LineFault::OtherAddress)
    }
}

// The tests for no line and for a long line come before that of the address. An empty line is read as any other.
#[tactic(auto, unfolding(outline::specs::Lines::command_of))]
pub fn command_of(buffer: &[u8], address: u8) -> Result<Order, LineFault>
    ensures { result ≡ command_of buffer.now address }
{
    match line::kind_of(buffer) {
        LineKind::NoLine => Err(LineFault::NoLine),
        LineKind::Long => Err(LineFault::LongLine),
        LineKind::Empty | LineKind::Text => spoken(line::line_of(buffer), address),
    }
}
