// The smallest writers: each puts its bytes into a place of the lent buffer and answers the place behind them. But for the public one, the
// caller has seen to the room. A struct of buffer and place would make no contract shorter: each would name the same values by its fields.
ghost use Rattle.std.specs.Prelude.{◌≡◌, ◌+◌, ◌≤◌, length, ◌∷◌, []};
ghost use Rattle.outline.specs.Replies.{digits_of, letters_text};
ghost use Rattle.replies.specs.Put.{Put, put_in, place_in};

// The last decimal digits of a value, the last of them first, so that none is kept aside.
pub(crate) fn put_digits(buffer: &mut [u8], at: usize, width: usize, value: u64) -> usize
    requires { at + width ≤ length buffer.old }
    ensures { Put buffer.old at (digits_of width value) buffer.new result width }
{
    let mut v = value;
    for k in (0..width).rev() {
        buffer[at + k] = b'0' + (v % 10) as u8;
        v /= 10;
    }
    at + width
}

// The same at any place of any buffer: where the digits do not fit, none is put, and the place is answered as it was given.
#[tactic(auto, using(outline::proofs::Lengths::length_digits), unfolding(crate::specs::Put::put_in, crate::specs::Put::place_in))]
pub fn digits_at(buffer: &mut [u8], at: usize, width: usize, value: u64) -> usize
    ensures place { result ≡ place_in buffer.old at (digits_of width value) }
    ensures bytes { buffer.new ≡ put_in buffer.old at (digits_of width value) }
{
    if buffer.len() < width || buffer.len() - width < at {
        return at;
    }
    put_digits(buffer, at, width, value)
}

// Bytes as they are given.
#[tactic(auto, using(crate::proofs::Stores::part))]
pub(crate) fn put_bytes(buffer: &mut [u8], at: usize, bytes: &[u8]) -> usize
    requires { at + length bytes.now ≤ length buffer.old }
    ensures { Put buffer.old at bytes.now buffer.new result (length bytes.now) }
{
    let end = at + bytes.len();
    buffer[at..end].copy_from_slice(bytes);
    end
}

pub(crate) fn put_byte(buffer: &mut [u8], at: usize, byte: u8) -> usize
    requires { at + 1 ≤ length buffer.old }
    ensures { Put buffer.old at (byte ∷ []) buffer.new result 1 }
{
    buffer[at] = byte;
    at + 1
}

// Two letters that come as one number, the first of them above.
pub(crate) fn put_letters(buffer: &mut [u8], at: usize, letters: u16) -> usize
    requires { at + 2 ≤ length buffer.old }
    ensures { Put buffer.old at (letters_text letters) buffer.new result 2 }
{
    let n = put_byte(buffer, at, (letters / 256) as u8);
    put_byte(buffer, n, (letters % 256) as u8)
}
