// Numbers at a place of a buffer: read and written big-endian, signed ones in two's complement, a flag as a byte that is 0 or 1. A byte
// past the end reads as 0 and is not written, so that nothing is asked of a caller.
#![tactic(auto)]

ghost use Rattle.std.specs.Prelude.{◌≡◌, ℕ, ◌+◌, length, get_or, set, replicate, true, ◌&&◌, eqb};
ghost use Rattle.std.specs.List.{fold};
ghost use Rattle.std.specs.Int.{w32, w64};
ghost use Rattle.places.specs.Places.{be_at, put_be, signed, coded, flag_of, flag_tag, zeros_at};

// The byte i places on from `at`, or 0 past the end. No buffer has a byte at usize::MAX: a sum that stops there is past the end too.
fn byte(s: &[u8], at: usize, i: usize) -> u8
    ensures { result ≡ get_or s.now (at + i) 0 }
{
    s.get(at.saturating_add(i)).copied().unwrap_or(0)
}

// No `get_mut`: what it promises of the slice where it gives nothing is too little here.
#[tactic(auto, using(std::proofs::lemmas::List::set_past))]
fn put_byte(s: &mut [u8], at: usize, i: usize, b: u8)
    ensures { s.new ≡ set s.old (at + i) b }
{
    let k = at.saturating_add(i);
    if k < s.len() {
        s[k] = b;
    }
}

// What can stand at a place: in so many bytes, as the number that `number_of` says; a number there is read as `read_as` says, total.
pub trait Placed: Copy {
    ghost bytes: { ℕ };

    ghost number_of: { Self → ℕ };

    ghost read_as: { ℕ → Self };

    fn read_at(s: &[u8], at: usize) -> Self
        ensures { result ≡ read_as (be_at bytes s.now at) };

    fn put_at(self, s: &mut [u8], at: usize)
        ensures { s.new ≡ put_be bytes (number_of self) s.old at };
}

#[tactic(auto, unfolding(crate::specs::Places::be_at, crate::specs::Places::put_be))]
impl Placed for u8 {
    ghost bytes = { 1 };

    ghost number_of = { λ v. v };

    ghost read_as = { λ n. n };

    fn read_at(s: &[u8], at: usize) -> u8 {
        byte(s, at, 0)
    }

    fn put_at(self, s: &mut [u8], at: usize) {
        put_byte(s, at, 0, self);
    }
}

#[tactic(auto, unfolding(crate::specs::Places::be_at, crate::specs::Places::put_be))]
impl Placed for u16 {
    ghost bytes = { 2 };

    ghost number_of = { λ v. v };

    ghost read_as = { λ n. n };

    fn read_at(s: &[u8], at: usize) -> u16 {
        u16::from(byte(s, at, 0)) * 256 + u16::from(byte(s, at, 1))
    }

    fn put_at(self, s: &mut [u8], at: usize) {
        put_byte(s, at, 0, (self / 256) as u8);
        put_byte(s, at, 1, (self % 256) as u8);
    }
}

#[tactic(auto, unfolding(crate::specs::Places::be_at, crate::specs::Places::put_be))]
impl Placed for u32 {
    ghost bytes = { 4 };

    ghost number_of = { λ v. v };

    ghost read_as = { λ n. n };

    fn read_at(s: &[u8], at: usize) -> u32 {
        let high = u32::from(byte(s, at, 0)) * 256 + u32::from(byte(s, at, 1));
        (high * 256 + u32::from(byte(s, at, 2))) * 256 + u32::from(byte(s, at, 3))
    }

    fn put_at(self, s: &mut [u8], at: usize) {
        put_byte(s, at, 0, (self / 256 / 256 / 256) as u8);
        put_byte(s, at, 1, (self / 256 / 256 % 256) as u8);
        put_byte(s, at, 2, (self / 256 % 256) as u8);
        put_byte(s, at, 3, (self % 256) as u8);
    }
}

#[tactic(auto, unfolding(crate::specs::Places::be_at, crate::specs::Places::put_be))]
impl Placed for u64 {
    ghost bytes = { 8 };

    ghost number_of = { λ v. v };

    ghost read_as = { λ n. n };

    fn read_at(s: &[u8], at: usize) -> u64 {
        let high = u32::read_at(s, at);
        let low = u32::read_at(s, at.saturating_add(4));
        u64::from(high) * 4_294_967_296 + u64::from(low)
    }

    fn put_at(self, s: &mut [u8], at: usize) {
        ((self / 4_294_967_296) as u32).put_at(s, at);
        ((self % 4_294_967_296) as u32).put_at(s, at.saturating_add(4));
    }
}

#[tactic(auto, unfolding(crate::specs::Places::signed, crate::specs::Places::coded))]
impl Placed for i32 {
    ghost bytes = { 4 };

    ghost number_of = { coded w32 };

    ghost read_as = { signed w32 };

    fn read_at(s: &[u8], at: usize) -> i32 {
        u32::read_at(s, at).cast_signed()
    }

    fn put_at(self, s: &mut [u8], at: usize) {
        u32::put_at(self.cast_unsigned(), s, at);
    }
}

#[tactic(auto, unfolding(crate::specs::Places::signed, crate::specs::Places::coded))]
impl Placed for i64 {
    ghost bytes = { 8 };

    ghost number_of = { coded w64 };

    ghost read_as = { signed w64 };

    fn read_at(s: &[u8], at: usize) -> i64 {
        u64::read_at(s, at).cast_signed()
    }

    fn put_at(self, s: &mut [u8], at: usize) {
        u64::put_at(self.cast_unsigned(), s, at);
    }
}

// 1 is yes, and any other byte no.
#[tactic(auto, unfolding(crate::specs::Places::flag_of, crate::specs::Places::flag_tag))]
impl Placed for bool {
    ghost bytes = { 1 };

    ghost number_of = { flag_tag };

    ghost read_as = { flag_of };

    fn read_at(s: &[u8], at: usize) -> bool {
        u8::read_at(s, at) == 1
    }

    fn put_at(self, s: &mut [u8], at: usize) {
        u8::put_at(u8::from(self), s, at);
    }
}

pub fn read<T: Placed>(s: &[u8], at: usize) -> T
    ensures { result ≡ T.read_as (be_at T.bytes s.now at) }
{
    T::read_at(s, at)
}

pub fn put<T: Placed>(s: &mut [u8], at: usize, v: T)
    ensures { s.new ≡ put_be T.bytes (T.number_of v) s.old at }
{
    v.put_at(s, at);
}

// Every byte 0.
pub fn clear(s: &mut [u8])
    ensures { s.new ≡ replicate (length s.old) 0 }
{
    s.fill(0);
}

// Each byte is looked at, with no way out before the last, so that the compiler compares many at once.
fn all_zero(s: &[u8]) -> bool
    ensures { result ≡ fold (λ zero b. zero && eqb b 0) true s.now }
{
    s.iter().fold(true, |zero, b| zero & (*b == 0))
}

// Whether the n bytes from `at` on are 0.
pub fn are_zero(s: &[u8], at: usize, n: usize) -> bool
    ensures { result ≡ zeros_at n at s.now }
{
    let end = at.saturating_add(n).min(s.len());
    match s.get(at..end) {
        Some(part) => all_zero(part),
        None => true,
    }
}
