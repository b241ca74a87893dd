// The ranges of the settings: a function for each row of the outline's table and one for a discharge's, asked of any numbers at all.
// Tests are joined by `&`, which asks them all: each can be asked of any number, and the check has one way through.
ghost use Rattle.std.specs.Prelude.{◌≡◌};
ghost use Rattle.outline.specs.Settings.{from_to, within, counts_fit, capacity_fits, division_fits, zero_range_fits, tracking_fits};
ghost use Rattle.outline.specs.Settings.{stability_fits};
ghost use Rattle.outline.specs.Settings.{mode_fits, delays_fit, flow_fits, address_fits, analog_fits, discharge_fits, settings_fit};

use types::settings::Given;

const COUNT_LIMIT: u32 = 2_000_000;

const COUNTS_PER_DIVISION: i64 = 10;

const CAPACITY_LIMIT: u32 = 16_000;

const ZERO_RANGE_LIMIT: u32 = 30;

const TRACK_TIME_LIMIT: u32 = 500;

const TRACK_WIDTH_LIMIT: u32 = 45;

const ALLOWANCE_LIMIT: u32 = 10_000;

const STABLE_TIME_LEAST: u32 = 10;

const STABLE_TIME_LIMIT: u32 = 500;

const STABLE_WIDTH_LIMIT: u32 = 9;

const DELAY_LIMIT: u32 = 9_999;

const FLOW_LIMIT: u32 = 60_000;

const DISCHARGE_LIMIT: u32 = 60_000;

const ADDRESS_LIMIT: u32 = 99;

const END_LIMIT: u32 = 999_999;

// From a to b, both taken in.
fn is_from_to(a: u32, b: u32, x: i32) -> bool
    ensures { result ≡ from_to a b x }
{
    let w = x as i64;
    (a as i64 <= w) & (w <= b as i64)
}

// From -n to n.
fn is_within(n: u32, x: i32) -> bool
    ensures { result ≡ within n x }
{
    whole::magnitude(x as i64) <= n as u64
}

// Z, S: S - Z at least 10·W.
fn counts_fit(g: Given) -> bool
    ensures { result ≡ counts_fit g }
{
    let least = (g.weight as i64) * COUNTS_PER_DIVISION;
    is_within(COUNT_LIMIT, g.zero)
        & is_within(COUNT_LIMIT, g.span)
        & (least <= whole::difference(g.span, g.zero))
}

// C, W: W at most C.
fn capacity_fits(g: Given) -> bool
    ensures { result ≡ capacity_fits g }
{
    is_from_to(1, CAPACITY_LIMIT, g.capacity) & (1 <= g.weight) & (g.weight <= g.capacity)
}

// d
fn division_fits(g: Given) -> bool
    ensures { result ≡ division_fits g }
{
    let d = g.division;
    (d == 1) | (d == 2) | (d == 5) | (d == 10) | (d == 20) | (d == 50)
}

// p
fn zero_range_fits(g: Given) -> bool
    ensures { result ≡ zero_range_fits g }
{
    is_from_to(1, ZERO_RANGE_LIMIT, g.zeroing)
}

// q, w, L
fn tracking_fits(g: Given) -> bool
    ensures { result ≡ tracking_fits g }
{
    is_from_to(0, TRACK_TIME_LIMIT, g.tracktime)
        & is_from_to(0, TRACK_WIDTH_LIMIT, g.trackwidth)
        & is_from_to(0, ALLOWANCE_LIMIT, g.allowance)
}

// k, s
fn stability_fits(g: Given) -> bool
    ensures { result ≡ stability_fits g }
{
    is_from_to(STABLE_TIME_LEAST, STABLE_TIME_LIMIT, g.stabletime)
        & is_from_to(0, STABLE_WIDTH_LIMIT, g.stablewidth)
}

fn mode_fits(g: Given) -> bool
    ensures { result ≡ mode_fits g }
{
    is_from_to(1, 2, g.mode)
}

// The five delays.
fn delays_fit(g: Given) -> bool
    ensures { result ≡ delays_fit g }
{
    is_from_to(0, DELAY_LIMIT, g.start)
        & is_from_to(0, DELAY_LIMIT, g.large)
        & is_from_to(0, DELAY_LIMIT, g.medium)
        & is_from_to(0, DELAY_LIMIT, g.small)
        & is_from_to(0, DELAY_LIMIT, g.judge)
}

// Q
fn flow_fits(g: Given) -> bool
    ensures { result ≡ flow_fits g }
{
    is_from_to(1, FLOW_LIMIT, g.flow)
}

fn address_fits(g: Given) -> bool
    ensures { result ≡ address_fits g }
{
    is_from_to(0, ADDRESS_LIMIT, g.address)
}

// The board and the two ends, which are asked without a board too.
fn analog_fits(g: Given) -> bool
    ensures { result ≡ analog_fits g }
{
    let board = g.board;
    let low = g.low;
    let high = g.high;
    is_from_to(0, 2, board) & is_within(END_LIMIT, low) & is_within(END_LIMIT, high) & (low != high)
}

// The two delays and the limit of a discharge, which are asked in mode 2 too.
fn discharge_fits(g: Given) -> bool
    ensures { result ≡ discharge_fits g }
{
    is_from_to(0, DELAY_LIMIT, g.dischargestart)
        & is_from_to(0, DELAY_LIMIT, g.dischargeend)
        & is_from_to(1, DISCHARGE_LIMIT, g.dischargelimit)
}

// Every row of the table.
pub(crate) fn settings_fit(g: Given) -> bool
    ensures { result ≡ settings_fit g }
{
    counts_fit(g)
        & capacity_fits(g)
        & division_fits(g)
        & zero_range_fits(g)
        & tracking_fits(g)
        & stability_fits(g)
        & mode_fits(g)
        & delays_fit(g)
        & flow_fits(g)
        & address_fits(g)
        & analog_fits(g)
        & discharge_fits(g)
}
