// The benchmark's input. A number is three bytes, the least first; the numbers, by their places:
//
//     0          the mode: 1 a block's ticks, 2 ticks without a request, 3 ticks with a request, else ticks with a line
//     1          the rounds
//     2 to 26    the settings, in the order of the outline's table, and then those of a discharge
//     27 to 33   the setpoints, in the order of the command SS
//     34         the count of the ticks before the first round
//     35         the refill contact of every tick: 0 open, else closed
//
// Then 16 lines of 64 bytes, each a serial command with its CR LF and zeros behind it, and up to three blocks of 4,096 counts. A number
// that the input is too short for is 0.
ghost use Rattle.std.specs.Prelude.{◌<◌};

use types::settings::Given;
use types::stages::Setpoints;

const NUMBER_BYTES: usize = 3;

// The numbers before the lines, and where the lines and the counts begin.
const NUMBERS: usize = 36;

const LINES_AT: usize = 108;

const COUNTS_AT: usize = 1_132;

const BLOCK: usize = 4_096;

// The counts of a round.
pub(crate) const COUNTS: usize = 12_288;

// What the ticks come with.
#[derive(Clone, Copy)]
pub(crate) enum Mode {
    Block,
    Unasked,
    Asked,
    Line,
}

// What is asked for, but for the settings.
#[derive(Clone, Copy)]
pub(crate) struct Head {
    pub mode: Mode,
    pub rounds: u32,
    pub points: Setpoints,
    pub first: i32,
    pub contact: bool,
}

fn mode_of(n: u32) -> Mode {
    match n {
        1 => Mode::Block,
        2 => Mode::Unasked,
        3 => Mode::Asked,
        _ => Mode::Line,
    }
}

// The number whose bytes begin at a place.
fn number_from(bytes: &[u8], at: usize) -> u32
    ensures { result < 16777216 }
{
    match bytes.get(at..) {
        Some([a, b, c, ..]) => u32::from(*a) + u32::from(*b) * 256 + u32::from(*c) * 65_536,
        _ => 0,
    }
}

fn number(bytes: &[u8], i: usize) -> u32
    ensures { result < 16777216 }
{
    if NUMBERS <= i {
        return 0;
    }
    number_from(bytes, NUMBER_BYTES * i)
}

fn signed(bytes: &[u8], i: usize) -> i32 {
    number(bytes, i) as i32
}

pub(crate) fn given(bytes: &[u8]) -> Given {
    Given {
        zero: signed(bytes, 2),
        span: signed(bytes, 3),
        capacity: signed(bytes, 4),
        weight: signed(bytes, 5),
        division: signed(bytes, 6),
        zeroing: signed(bytes, 7),
        tracktime: signed(bytes, 8),
        trackwidth: signed(bytes, 9),
        allowance: signed(bytes, 10),
        stabletime: signed(bytes, 11),
        stablewidth: signed(bytes, 12),
        mode: signed(bytes, 13),
        start: signed(bytes, 14),
        large: signed(bytes, 15),
        medium: signed(bytes, 16),
        small: signed(bytes, 17),
        judge: signed(bytes, 18),
        flow: signed(bytes, 19),
        address: signed(bytes, 20),
        board: signed(bytes, 21),
        low: signed(bytes, 22),
        high: signed(bytes, 23),
        dischargestart: signed(bytes, 24),
        dischargeend: signed(bytes, 25),
        dischargelimit: signed(bytes, 26),
    }
}

fn setpoints(bytes: &[u8]) -> Setpoints {
    Setpoints {
        target: number(bytes, 27),
        fall: number(bytes, 28),
        preliminary: number(bytes, 29),
        optional: number(bytes, 30),
        over: number(bytes, 31),
        under: number(bytes, 32),
        near: number(bytes, 33),
    }
}

pub(crate) fn head_of(bytes: &[u8]) -> Head {
    Head {
        mode: mode_of(number(bytes, 0)),
        rounds: number(bytes, 1),
        points: setpoints(bytes),
        first: signed(bytes, 34),
        contact: 0 < number(bytes, 35),
    }
}

// The 16 lines, one behind the other.
pub(crate) fn lines(bytes: &[u8]) -> &[u8] {
    bytes.get(LINES_AT..COUNTS_AT).unwrap_or(&[])
}

fn count_at(bytes: &[u8], i: usize) -> i32 {
    if COUNTS <= i {
        return 0;
    }
    number_from(bytes, COUNTS_AT + NUMBER_BYTES * i) as i32
}

pub(crate) fn fill(bytes: &[u8], counts: &mut [i32]) {
    for (i, count) in counts.iter_mut().enumerate() {
        *count = count_at(bytes, i);
    }
}

// How many counts the input has.
pub(crate) fn counts_in(bytes: &[u8]) -> usize {
    bytes.len().saturating_sub(COUNTS_AT) / NUMBER_BYTES
}

// The first n counts.
pub(crate) fn first_counts(counts: &[i32], n: usize) -> &[i32] {
    counts.get(..n).unwrap_or(counts)
}

// A block of the three.
pub(crate) fn block(counts: &[i32], i: usize) -> &[i32] {
    counts.chunks(BLOCK).nth(i).unwrap_or(&[])
}
