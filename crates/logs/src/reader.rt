// The lines of an input, by the bytes of it that a buffer holds. Each line stays where it was read, so an input of any length takes no more
// room than that. Reading it is the programs': whichever bytes come, which line they hold is said here.
ghost use Rattle.std.specs.Prelude.{◌≡◌, cond, suc, ltb, drop};
ghost use Rattle.outline.specs.Log.{between, line_at, number_behind, line_behind, request_place};

use crate::pieces::{next_lf, part};
use types::log::Line;

// The line that begins at a place. The first one is at place 0 and has number 1.
#[tactic(auto, unfolding(outline::specs::Log::line_at))]
pub fn line_at(space: &[u8], from: usize, all: usize, number: u64) -> Line
    ensures { result ≡ line_at space.now from all number }
{
    let held = part(space, 0, all);
    let end = next_lf(held, from);
    let here = from < held.len();
    let whole = end < held.len();
    let said = crate::log_line(part(space, from, end));
    Line {
        from,
        end,
        all,
        number,
        here,
        whole,
        said,
    }
}

// No input has lines enough to reach the end of the numbers.
fn number_behind(number: u64) -> u64
    ensures { result ≡ number_behind number }
{
    number.saturating_add(1)
}

// Where the next line begins: behind the LF, or at the end of what is held where the line has none.
fn place_behind(end: usize, all: usize) -> usize
    ensures { result ≡ cond (ltb end all) (suc end) all }
{
    if end < all { end + 1 } else { all }
}

// The line that follows another among the bytes held. Where it is not whole the input is to be read on before it is used.
#[tactic(auto, unfolding(outline::specs::Log::line_behind))]
pub fn line_behind(space: &[u8], line: Line) -> Line
    ensures { result ≡ line_behind space.now line }
{
    let from = place_behind(line.end, line.all);
    let number = number_behind(line.number);
    line_at(space, from, line.all, number)
}

// The request of a line that the buffer still holds: the line's bytes from the request's place on.
pub fn request_in(space: &[u8], line: Line) -> &[u8]
    ensures { result.now ≡ drop (request_place line.said) (between space.now line.from line.end) }
{
    let request = line.said.map_or(0, |said| said.request);
    part(part(space, line.from, line.end), request, line.end)
}
