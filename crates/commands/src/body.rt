// What stands after the prefix: the letters, the length that they need, and the fields of SS.
ghost use Rattle.std.specs.Prelude.{◌≡◌, cond, eqb, length};
ghost use Rattle.outline.specs.Lines.{decode_of, body_of};

use crate::letters::letters_of;
use crate::line::byte_at;
use types::lines::{Letters, LineFault, Order};

// The two letters of a command; a command that is no SS is no longer.
const LETTERS_LENGTH: u16 = 2;

// SS, and the seven fields of six digits that follow it at once.
const SET_LENGTH: usize = 44;

// A line of the length that is due to its command; any other is malformed, and not unknown.
fn sized(line: &[u8], due: usize) -> Result<(), LineFault>
    ensures { result ≡ cond (eqb (length line.now) due) (Ok tt) (Err LineFault.Malformed) }
{
    if line.len() == due {
        Ok(())
    } else {
        Err(LineFault::Malformed)
    }
}

// What the letters at a place ask for. Letters that name no command are unknown at any length. Whether seven numbers may be set is not
// asked here.
#[tactic(auto, unfolding(outline::specs::Lines::decode_of))]
fn decode(letters: Option<Letters>, line: &[u8], at: u8) -> Result<Order, LineFault>
    ensures { result ≡ decode_of letters line.now at }
{
    let end = u16::from(at) + LETTERS_LENGTH;
    match letters.ok_or(LineFault::Unknown)? {
        Letters::One(w) => {
            sized(line, usize::from(end))?;
            Ok(Order::Do(w))
        }
        Letters::Set => {
            sized(line, usize::from(at) + SET_LENGTH)?;
            let p = crate::fields::fields(line, end).ok_or(LineFault::Malformed)?;
            Ok(Order::Set(p))
        }
    }
}

// What stands after the prefix. Fewer than two bytes are no letters, so they are malformed and not unknown.
#[tactic(auto, unfolding(outline::specs::Lines::body_of))]
pub(crate) fn body(line: &[u8], at: u8) -> Result<Order, LineFault>
    ensures { result ≡ body_of line.now at }
{
    let p = usize::from(at);
    if line.len() < p + 2 {
        return Err(LineFault::Malformed);
    }
    decode(letters_of(byte_at(line, p), byte_at(line, p + 1)), line, at)
}
