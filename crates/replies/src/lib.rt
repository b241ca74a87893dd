// Replies of the serial line, written into the caller's buffer. A reply stands at the buffer's start or not at all; bytes behind it stay.
#![tactic(auto)]

ghost use Rattle.std.specs.Prelude.{◌≡◌, ◌≤◌, length};
ghost use Rattle.outline.specs.Lines.{prefix_length};
ghost use Rattle.outline.specs.Replies.{prefix_text, reply_text, written_of};
ghost use Rattle.replies.specs.Put.{Put};
ghost use Rattle.replies.specs.Wrote.{wrote_of};

use crate::put::{put_byte, put_bytes};
use crate::text::{put_text, text_length};
use commands::prefix::prefix_length;
use types::lines::Reply;

pub mod due;
pub mod put;
mod shown;
mod text;

// CR and LF.
const END_BYTES: usize = 2;

// The buffer is shorter than the reply.
#[derive(Clone, Copy)]
pub struct ShortBuffer;

// The prefix that the address asks for, at the buffer's start.
#[tactic(auto, unfolding(outline::specs::Lines::prefix_length))]
fn put_prefix(buffer: &mut [u8], address: u8) -> usize
    requires { prefix_length address ≤ length buffer.old }
    ensures { Put buffer.old 0 (prefix_text address) buffer.new result (prefix_length address) }
{
    if address == 0 {
        return 0;
    }
    let n = put_byte(buffer, 0, b'@');
    let n = put_byte(buffer, n, b'0' + address / 10 % 10);
    put_byte(buffer, n, b'0' + address % 10)
}

// The reply due to a line: prefix, text and CR LF. Where none is due nothing is written, so that it fits any buffer. It answers how many
// bytes the reply has.
pub fn write_reply(buffer: &mut [u8], address: u8, r: Option<Reply>) -> Result<usize, ShortBuffer>
    ensures answer { result ≡ wrote_of (reply_text address r) buffer.old }
    ensures bytes { buffer.new ≡ written_of (reply_text address r) buffer.old }
{
    let Some(due) = r else {
        return Ok(0);
    };
    let prefix = usize::from(prefix_length(address));
    if buffer.len() < prefix + text_length(due) + END_BYTES {
        return Err(ShortBuffer);
    }
    let n = put_prefix(buffer, address);
    let n = put_text(buffer, n, due);
    Ok(put_bytes(buffer, n, b"\r\n"))
}
