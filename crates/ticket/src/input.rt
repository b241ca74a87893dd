// The log on standard input, read in pieces of one buffer. Which bytes come is the world's, so these functions have no one outcome; which
// line the bytes hold is promised by `logs::reader`, and here that it is this line that is given. A read that fails is given on.
//
// This file stands in ticket and in replay alike, and not once in logs: no public call is without one outcome, and no call of a library
// reads (docs/DECISIONS.md, 'One outcome').
ghost use Rattle.std.specs.Prelude.{◌≡◌, IfOk};
ghost use Rattle.outline.specs.Log.{line_at, next_line};

use logs::pieces::keep;
use logs::reader::{line_at, line_behind};
use std::io::{self, Read};
use types::log::Line;

// Reads on behind the bytes kept, until the buffer is full or the input ends, and tells how many there are then. It goes by what each read
// gives, which no range or iterator has.
fn read_on(input: &mut impl Read, space: &mut [u8], kept: usize) -> io::Result<usize> {
    let mut held = kept;
    while held < space.len() {
        let n = input.read(&mut space[held..])?;
        if n == 0 {
            break;
        }
        held += n;
    }
    Ok(held)
}

// The first line of the input.
#[tactic(auto, unfolding(outline::specs::Log::line_at))]
pub(crate) fn first_line(input: &mut impl Read, space: &mut [u8]) -> io::Result<Line>
    ensures { IfOk result (λ line. line ≡ line_at space.new 0 line.all 1) }
{
    let all = read_on(input, space, 0)?;
    Ok(line_at(space, 0, all, 1))
}

// The line behind, where it is whole. One whose LF is not held yet is brought to the start of the buffer, and the input is read on behind
// it.
#[tactic(auto, unfolding(outline::specs::Log::next_line, outline::specs::Log::line_at))]
pub(crate) fn next_line(input: &mut impl Read, space: &mut [u8], line: Line) -> io::Result<Line>
    ensures { IfOk result (λ next. next ≡ next_line space.old space.new next.all line) }
{
    let next = line_behind(space, line);
    if next.whole {
        return Ok(next);
    }
    let kept = keep(space, next.from, next.all);
    let all = read_on(input, space, kept)?;
    Ok(line_at(space, 0, all, next.number))
}
