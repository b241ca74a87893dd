// The settings image: read, all of its numbers as they are given. The caller writes it.
ghost use Rattle.std.specs.Prelude.{◌≡◌};
ghost use Rattle.images.specs.GivenImage.{given_length, given_at, given_in};
ghost use Rattle.images.specs.Buffers.{bytes_of};
ghost use Rattle.images.specs.Refusals.{bytes_number};

use crate::refusals::ImageRefusal;
use types::settings::Given;

// The bytes of a settings image.
pub(crate) const GIVEN_LENGTH: usize = 128;

// What stands at the places, whatever the bytes are. It asks for the length first, so that the compiler reads a number in one piece; a
// buffer of another length holds no settings, and reads as numbers that are all 0.
#[tactic(auto, using(crate::proofs::Buffers::reads), unfolding(crate::specs::GivenImage::given_at, places::specs::Places::get_all))]
pub fn given_at(s: &[u8]) -> Given
    ensures { result ≡ given_at (bytes_of given_length s.now) }
{
    if s.len() != GIVEN_LENGTH {
        return Given {
            zero: 0,
            span: 0,
            capacity: 0,
            weight: 0,
            division: 0,
            zeroing: 0,
            tracktime: 0,
            trackwidth: 0,
            allowance: 0,
            stabletime: 0,
            stablewidth: 0,
            mode: 0,
            start: 0,
            large: 0,
            medium: 0,
            small: 0,
            judge: 0,
            flow: 0,
            address: 0,
            board: 0,
            low: 0,
            high: 0,
            dischargestart: 0,
            dischargeend: 0,
            dischargelimit: 0,
        };
    }
    Given {
        zero: places::read(s, 0),
        span: places::read(s, 4),
        capacity: places::read(s, 8),
        weight: places::read(s, 12),
        division: places::read(s, 16),
        zeroing: places::read(s, 20),
        tracktime: places::read(s, 24),
        trackwidth: places::read(s, 28),
        allowance: places::read(s, 32),
        stabletime: places::read(s, 36),
        stablewidth: places::read(s, 40),
        mode: places::read(s, 44),
        start: places::read(s, 48),
        large: places::read(s, 52),
        medium: places::read(s, 56),
        small: places::read(s, 60),
        judge: places::read(s, 64),
        flow: places::read(s, 68),
        address: places::read(s, 72),
        board: places::read(s, 76),
        low: places::read(s, 80),
        high: places::read(s, 84),
        dischargestart: places::read(s, 88),
        dischargeend: places::read(s, 92),
        dischargelimit: places::read(s, 96),
    }
}

// A settings image is refused for another length, or for an unused byte that is not 0. Any numbers may be given, so that only the bytes
// behind them are asked for.
pub fn given_refusal(s: &[u8]) -> Result<(), ImageRefusal>
    ensures { bytes_number result ≡ (given_in s.now).refusal }
{
    if s.len() != GIVEN_LENGTH {
        return Err(ImageRefusal::WrongLength);
    }
    if !places::are_zero(s, 100, 28) {
        return Err(ImageRefusal::Impossible);
    }
    Ok(())
}
