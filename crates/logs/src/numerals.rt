// The whole numbers of a log: an optional minus and one to nine digits, read at any place of any line.
ghost use Rattle.std.specs.Prelude.{◌≡◌, true, cond, suc, ◌^◌, ◌≤◌, ◌<◌, take};
ghost use Rattle.outline.specs.Limits.{number_digits};
ghost use Rattle.outline.specs.Log.{digit_run, value_from, signed_of, number_at};

use crate::pieces::part;
use commands::digits::is_digit;
use commands::line::byte_at;
use types::log::LogNumber;

// The most digits of a number. So many always fit an i32.
const NUMBER_DIGITS: usize = 9;

// How many digits a part of a line begins with, however many.
fn digit_run(part: &[u8]) -> usize
    ensures { result ≡ digit_run part.now }
{
    for (i, &b) in part.iter().enumerate() {
        if !is_digit(b) {
            return i;
        }
    }
    part.len()
}

// The number that the first n bytes say, which are digits.
fn value_of(part: &[u8], n: usize) -> u32
    requires { (n ≤ number_digits) × (n ≤ digit_run part.now) }
    ensures { result ≡ value_from 0 (take n part.now) }
{
    let mut v: u32 = 0;
    for i in 0..n {
        v = v * 10 + u32::from(part[i] - b'0');
    }
    v
}

fn signed(minus: bool, v: u32) -> i32
    requires { v < 10 ^ number_digits }
    ensures { result ≡ signed_of minus v }
{
    let n = v as i32;
    if minus { -n } else { n }
}

fn digits_from(minus: bool, at: usize) -> usize
    requires { minus ≡ true → suc at < 2 ^ 64 }
    ensures { result ≡ cond minus (suc at) at }
{
    if minus { at + 1 } else { at }
}

// The whole number at a place of the line, as far as its digits go.
#[tactic(auto, using(crate::proofs::NumberLaws::minus_within), unfolding(outline::specs::Log::number_at))]
pub fn number_at(line: &[u8], at: usize) -> Option<LogNumber>
    ensures { result ≡ number_at line.now at }
{
    let minus = byte_at(line, at) == b'-';
    let from = digits_from(minus, at);
    let digits = part(line, from, line.len());
    let n = digit_run(digits);
    match n {
        1..=NUMBER_DIGITS => Some(LogNumber {
            value: signed(minus, value_of(digits, n)),
            end: from + n,
        }),
        _ => None,
    }
}
