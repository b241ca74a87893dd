// The line in a receive buffer: where it ends, which part of the buffer it is, and of what kind it is.
ghost use Rattle.std.specs.Prelude.{◌≡◌, get_or};
ghost use Rattle.outline.specs.Lines.{is_cr_lf, line_end_of, line_of, kind_of};
ghost use Rattle.outline.specs.Numbers.{kind_number};
ghost use Rattle.outline.specs.Answers.{kind_due};

use types::lines::{LineKind, NoEnd};

// The most bytes that a line may have before its CR LF.
const LINE_LIMIT: usize = 64;

// One byte of a slice. Past the end it is 0, which no letter and no digit is, so that a reader needs no test of the length.
pub fn byte_at(s: &[u8], i: usize) -> u8
    ensures { result ≡ get_or s.now i 0 }
{
    s.get(i).copied().unwrap_or(0)
}

fn is_cr_lf(a: u8, b: u8) -> bool
    ensures { result ≡ is_cr_lf a b }
{
    a == b'\r' && b == b'\n'
}

// The first CR LF decides: one that stands later is no end of this line, even where the first comes too late.
#[tactic(auto, unfolding(outline::specs::Lines::line_end_of))]
fn line_end(buf: &[u8]) -> Result<usize, NoEnd>
    ensures { result ≡ line_end_of buf.now }
{
    for (i, &b) in buf.iter().enumerate() {
        if is_cr_lf(b, byte_at(buf, i + 1)) {
            return if i <= LINE_LIMIT {
                Ok(i)
            } else {
                Err(NoEnd::Beyond)
            };
        }
    }
    Err(NoEnd::Missing)
}

// The line is a part of the caller's own buffer, not a copy. Where there is none, or a long one, it is the empty part at the start.
#[tactic(auto, unfolding(outline::specs::Lines::line_of))]
pub fn line_of(buf: &[u8]) -> &[u8]
    ensures text { result.now ≡ line_of buf.now }
    ensures place { result.ref_ptr ≡ buf.entry.ref_ptr }
{
    match line_end(buf) {
        Ok(n) => &buf[..n],
        Err(_) => &buf[..0],
    }
}

// What an empty part alone cannot tell: no line, a long line and an empty line.
#[tactic(auto, unfolding(outline::specs::Lines::kind_of))]
pub fn kind_of(buf: &[u8]) -> LineKind
    ensures kind { result ≡ kind_of buf.now }
    ensures number { kind_number result ≡ kind_due buf.now }
{
    match line_end(buf) {
        Ok(0) => LineKind::Empty,
        Ok(_) => LineKind::Text,
        Err(NoEnd::Beyond) => LineKind::Long,
        Err(NoEnd::Missing) => LineKind::NoLine,
    }
}
