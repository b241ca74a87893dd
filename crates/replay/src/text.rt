// Text into the output's buffer, each piece behind the one before. The room is tested once for each piece, since this is most of what
// replay does: a piece that finds no room is left out whole, and the next goes to its place. The buffer is written out in time, so
// that none is.
ghost use Rattle.std.specs.Prelude.{◌≡◌, ◌+◌, ◌<◌, ◌≤◌, leb};

use logs::pieces::part;
use std::io;

// The output is written when fewer bytes than a tick's line may need are left of its buffer.
const LINE_ROOM: usize = 1_024;

// n bytes at a place end within a buffer of this length.
fn has_room(length: usize, at: usize, n: usize) -> bool
    ensures { result ≡ leb (at + n) length }
{
    n <= length && at <= length - n
}

// The last digit of a number, and so of one below the radix the digit.
fn last_digit<const RADIX: u64>(n: u64) -> u8
    requires { (0 < RADIX) × (RADIX ≤ 16) }
{
    let d = (n % RADIX) as u8;
    if d < 10 { b'0' + d } else { b'a' - 10 + d }
}

// What is still to be written: the first bytes of a lent buffer. Each method gives it back with its text behind: so the place stays in a
// register, where a method that is lent the whole would write and read it each time.
#[derive(Drop)]
pub(crate) struct Output<'a> {
    buffer: &'a mut [u8],
    at: usize,
}

impl<'a> Output<'a> {
    pub(crate) fn new(buffer: &'a mut [u8]) -> Self {
        Output { buffer, at: 0 }
    }

    // Writes out what there is.
    pub(crate) fn written(self, rt: &impl Print) -> io::Result<Self> {
        let Output { buffer, at } = self;
        rt.write_all(part(buffer, 0, at))?;
        Ok(Output { buffer, at: 0 })
    }

    // Writes out what there is, where a line may not find room behind it.
    pub(crate) fn with_room(self, rt: &impl Print) -> io::Result<Self> {
        if has_room(self.buffer.len(), self.at, LINE_ROOM) {
            return Ok(self);
        }
        self.written(rt)
    }

    pub(crate) fn put(self, text: &[u8]) -> Self {
        let Output { buffer, at } = self;
        if !has_room(buffer.len(), at, text.len()) {
            return Output { buffer, at };
        }
        let end = at + text.len();
        buffer[at..end].copy_from_slice(text);
        Output { buffer, at: end }
    }

    pub(crate) fn byte(self, byte: u8) -> Self {
        let Output { buffer, at } = self;
        if buffer.len() <= at {
            return Output { buffer, at };
        }
        buffer[at] = byte;
        Output { buffer, at: at + 1 }
    }

    // The last k digits, from the right to the left.
    pub(crate) fn digits<const RADIX: u64>(self, n: u64, k: usize) -> Self
        requires { (0 < RADIX) × (RADIX ≤ 16) }
    {
        let Output { buffer, at } = self;
        if !has_room(buffer.len(), at, k) {
            return Output { buffer, at };
        }
        let end = at + k;
        let mut rest = n;
        for digit in buffer[at..end].iter_mut().rev() {
            *digit = last_digit::<RADIX>(rest);
            rest /= RADIX;
        }
        Output { buffer, at: end }
    }

    // Most numbers of a tick have one digit.
    pub(crate) fn number(self, n: u64) -> Self {
        if n < 10 {
            return self.byte(b'0' + n as u8);
        }
        self.digits::<10>(n, n.ilog10() as usize + 1)
    }

    pub(crate) fn signed(self, n: i64) -> Self {
        let out = if n < 0 { self.byte(b'-') } else { self };
        out.number(n.unsigned_abs())
    }

    pub(crate) fn flag(self, set: bool) -> Self {
        self.byte(if set { b'1' } else { b'0' })
    }

    // Bytes in hex, two digits each; `-` where there is none.
    pub(crate) fn hex(self, bytes: &[u8]) -> Self {
        if bytes.is_empty() {
            return self.byte(b'-');
        }
        let mut out = self;
        for &byte in bytes {
            out = out.digits::<16>(u64::from(byte), 2);
        }
        out
    }
}
