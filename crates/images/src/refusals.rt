// Why an image is refused for its bytes.
ghost use Rattle.std.specs.Prelude.{◌≡◌};
ghost use Rattle.images.specs.Refusals.{image_number};

use numbers::{IMPOSSIBLE, WRONG_LENGTH};

#[derive(Clone, Copy)]
pub enum ImageRefusal {
    WrongLength,
    // bytes that what was read, written again, would not give
    Impossible,
}

// 20 or 21.
pub fn image_number(n: ImageRefusal) -> u8
    ensures { result ≡ image_number n }
{
    match n {
        ImageRefusal::WrongLength => WRONG_LENGTH,
        ImageRefusal::Impossible => IMPOSSIBLE,
    }
}
