// The state image, judged by its bytes. Its parts are read and written in parts.rt, its ranges asked in possible.rt.
ghost use Rattle.std.specs.Prelude.{◌≡◌, cond, eqb, leb, length, true};
ghost use Rattle.places.specs.Places.{same_bytes, get_all, gaps, zeros_in};
ghost use Rattle.images.specs.StateImage.{state_length, state_rows, state_numbers, image_of, state_at};
ghost use Rattle.images.specs.Buffers.{is_image, filled};
ghost use Rattle.images.specs.Refusals.{bytes_number};
ghost use Rattle.images.specs.Images.{bytes_refusal, earlier_refusal};

use crate::names::stage_timer;
use crate::parts::{EARLIER_LENGTH, STATE_LENGTH, sequence_at, totals_at};
use crate::refusals::ImageRefusal;
use numbers::{error_number, judgement_number, stage_number};
use types::stages::{Sequence, Totals};

// 0 or 1: no, or yes.
fn is_flag(n: u8) -> bool
    ensures { result ≡ leb n 1 }
{
    n <= 1
}

// Whether the state that was read has the numbers at its places again: a flag is 0 or 1, a name's number names it, and a value without use
// is 0. Every other number is read as it stands.
fn is_read_whole(s: &[u8], q: Sequence, t: Totals) -> bool
    requires q_value { q ≡ (state_at s.now).sequence }
    requires t_value { t ≡ (state_at s.now).totals }
    ensures { result ≡ same_bytes (state_numbers (state_at s.now)) (get_all state_rows s.now) }
{
    is_flag(places::read(s, 36))
        & is_flag(places::read(s, 37))
        & is_flag(places::read(s, 40))
        & is_flag(places::read(s, 58))
        & (stage_number(q.stage) == places::read::<u8>(s, 88))
        & (stage_timer(q.stage) == places::read::<u16>(s, 90))
        & (error_number(q.error) == places::read::<u8>(s, 94))
        & (judgement_number(q.judgement) == places::read::<u8>(s, 95))
        & (u8::from(t.back.is_some()) == places::read::<u8>(s, 108))
        & (t.back.unwrap_or(0) == places::read::<u64>(s, 112))
        & is_flag(places::read(s, 256))
        & (places::read::<bool>(s, 256) | places::are_zero(s, 260, 28))
}

// The bytes that stand in no place are 0.
#[tactic(auto, using(crate::proofs::Read::unused_state))]
fn is_unused_zero(s: &[u8]) -> bool
    ensures { result ≡ zeros_in (gaps 0 state_length state_rows) s.now }
{
    places::are_zero(s, 38, 2)
        & places::are_zero(s, 41, 1)
        & places::are_zero(s, 59, 1)
        & places::are_zero(s, 89, 1)
        & places::are_zero(s, 109, 3)
        & places::are_zero(s, 120, 136)
        & places::are_zero(s, 257, 3)
}

// Whether the bytes are those that their state, written again, would give. The definition compares a second image; here the bytes
// themselves are asked, which comes to the same (places/Again). A byte past the end of an earlier image reads as 0.
fn is_written(s: &[u8]) -> bool
    requires { is_image (length s.now) ≡ true }
    ensures { result ≡ same_bytes (image_of (state_at s.now)) (filled s.now) }
{
    // It is never shorter; the compiler then knows that the places up to there need no test of their own.
    if s.len() < EARLIER_LENGTH {
        return false;
    }
    is_read_whole(s, sequence_at(s), totals_at(s)) && is_unused_zero(s)
}

// Of a buffer that must have n bytes: the length, and the bytes that its state, written again, would give.
fn judged(s: &[u8], n: usize) -> Result<(), ImageRefusal>
    requires { is_image n ≡ true }
    ensures { bytes_number result ≡ cond (eqb (length s.now) n) (cond (same_bytes (image_of (state_at s.now)) (filled s.now)) 0 21) 20 }
{
    if s.len() != n {
        return Err(ImageRefusal::WrongLength);
    }
    if !is_written(s) {
        return Err(ImageRefusal::Impossible);
    }
    Ok(())
}

// A state image is refused for its bytes. Whether the state is possible is asked by possible::is_possible.
#[tactic(auto, using(crate::proofs::Tests::state_bytes))]
pub fn bytes_refusal(s: &[u8]) -> Result<(), ImageRefusal>
    ensures { bytes_number result ≡ bytes_refusal s.now }
{
    judged(s, STATE_LENGTH)
}

// The same of an earlier image, which has bytes of 0 in place of those it lacks.
#[tactic(auto, using(crate::proofs::Tests::earlier_bytes))]
pub fn earlier_refusal(e: &[u8]) -> Result<(), ImageRefusal>
    ensures { bytes_number result ≡ earlier_refusal e.now }
{
    judged(e, EARLIER_LENGTH)
}
