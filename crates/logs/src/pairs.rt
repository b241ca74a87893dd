// A text that is printed: lines of a key, a number in decimal and LF. Its keys come as one row of bytes, and behind each `=` of them stands
// the next number. It is measured first, so that it is written whole or not at all.
ghost use Rattle.std.specs.Prelude.{◌≡◌, cond, ◌+◌, ◌≤◌, ◌<◌, length};
ghost use Rattle.outline.specs.Replies.{written_of};
ghost use Rattle.outline.specs.Ticket.{decimal_text, fitted_in};
ghost use Rattle.logs.specs.Amounts.{amount_of, number_line, number_lines, marks, filled};
ghost use Rattle.replies.specs.Put.{Put};

use replies::put::digits_at;

// A number as it is printed: whether a minus stands before it, and its magnitude.
#[derive(Clone, Copy)]
pub(crate) struct Amount {
    pub minus: bool,
    pub size: u64,
}

pub(crate) fn amount_of(n: i64) -> Amount
    ensures { result ≡ amount_of n }
{
    Amount {
        minus: n < 0,
        size: n.unsigned_abs(),
    }
}

// How many digits a number has. The library's ilog10 promises the powers of ten around it, not the count that the text is made by.
fn digit_count(n: u64) -> usize
    ensures { result ≡ length (decimal_text n) }
{
    let mut k: usize = 1;
    let mut rest = n;
    while 10 <= rest {
        rest /= 10;
        k += 1;
    }
    k
}

fn sign_length(minus: bool) -> usize
    ensures { result ≡ cond minus 1 0 }
{
    usize::from(minus)
}

// How many bytes the numbers take, each with its LF.
fn numbers_length(amounts: &[Amount]) -> usize
    requires { length amounts.now ≤ 8 }
    ensures { result ≡ length (number_lines amounts.now) }
{
    let mut n: usize = 0;
    for a in amounts {
        n += sign_length(a.minus) + digit_count(a.size) + 1;
    }
    n
}

// A number and LF. A minus is put first; where there is none, the first digit takes its place.
fn put_number(out: &mut [u8], at: usize, a: Amount) -> usize
    requires { at + length (number_line a) ≤ length out.old }
    ensures { Put out.old at (number_line a) out.new result (length (number_line a)) }
{
    out[at] = b'-';
    let next = digits_at(out, at + sign_length(a.minus), digit_count(a.size), a.size);
    out[next] = b'\n';
    next + 1
}

// The keys byte by byte, and the next number behind each `=`.
fn put_text(out: &mut [u8], keys: &[u8], amounts: &[Amount]) -> usize
    requires { (marks keys.now ≤ length amounts.now) × (length (filled keys.now amounts.now) ≤ length out.old) }
    ensures { Put out.old 0 (filled keys.now amounts.now) out.new result
        (length (filled keys.now amounts.now)) }
{
    let mut at: usize = 0;
    let mut line: usize = 0;
    for &byte in keys {
        out[at] = byte;
        at += 1;
        if byte != b'=' {
            continue;
        }
        at = put_number(out, at, amounts[line]);
        line += 1;
    }
    at
}

// The text, at the buffer's start, where it fits. The answer is the count of its bytes, 0 where they do not fit.
pub(crate) fn write_text(out: &mut [u8], keys: &[u8], amounts: &[Amount]) -> usize
    requires { (marks keys.now ≡ length amounts.now) × (length amounts.now ≤ 8) × (length keys.now < 100) }
    ensures count { result ≡ fitted_in (filled keys.now amounts.now) out.old }
    ensures bytes { out.new ≡ written_of (filled keys.now amounts.now) out.old }
{
    if out.len() < keys.len() + numbers_length(amounts) {
        return 0;
    }
    put_text(out, keys, amounts)
}
