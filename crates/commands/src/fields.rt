// The fields of six digits that stand in a line, and the seven of them that SS brings.
ghost use Rattle.std.specs.Prelude.{◌≡◌, ◌≤◌, length};
ghost use Rattle.outline.specs.Lines.{number_from, field_of, fields_of};

use crate::digits::is_digit;
use types::stages::Setpoints;

// The digits of a field. So many always fit a number of 32 bits.
const FIELD_WIDTH: usize = 6;

// The one reader of digits. It is lent a field and knows nothing of the line around it.
fn number_of(field: &[u8]) -> Option<u32>
    requires { length field.now ≤ 6 }
    ensures { result ≡ number_from 0 field.now }
{
    let mut v: u32 = 0;
    for &b in field {
        if !is_digit(b) {
            return None;
        }
        v = v * 10 + u32::from(b - b'0');
    }
    Some(v)
}

// The field at a place of the line; no number where the line ends within it.
#[tactic(auto, unfolding(outline::specs::Lines::field_of))]
fn field(line: &[u8], at: usize) -> Option<u32>
    ensures { result ≡ field_of line.now at }
{
    let end = at.checked_add(FIELD_WIDTH)?;
    number_of(line.get(at..end)?)
}

// The seven fields from a place on, each right behind the one before. One field that is no number spoils all seven.
#[tactic(auto, unfolding(outline::specs::Lines::fields_of))]
pub(crate) fn fields(line: &[u8], at: u16) -> Option<Setpoints>
    ensures { result ≡ fields_of line.now at }
{
    let a = usize::from(at);
    Some(Setpoints {
        target: field(line, a)?,
        fall: field(line, a + FIELD_WIDTH)?,
        preliminary: field(line, a + 2 * FIELD_WIDTH)?,
        optional: field(line, a + 3 * FIELD_WIDTH)?,
        over: field(line, a + 4 * FIELD_WIDTH)?,
        under: field(line, a + 5 * FIELD_WIDTH)?,
        near: field(line, a + 6 * FIELD_WIDTH)?,
    })
}
