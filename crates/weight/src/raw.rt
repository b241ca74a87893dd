// From count to raw, in tenths of a division.
ghost use Rattle.std.specs.Prelude.{◌≡◌};
ghost use Rattle.outline.specs.Weight.{good_count, tenths_of, raw_of};

use types::settings::Calibration;

// A count beyond it makes a bad tick.
const COUNT_LIMIT: i32 = 2_000_000;

// A raw beyond it makes a bad tick: a guard that no accepted calibration meets.
const RAW_LIMIT: u64 = 4_000_000;

fn is_good(count: i32) -> bool
    ensures { result ≡ good_count count }
{
    0 - COUNT_LIMIT <= count && count <= COUNT_LIMIT
}

// (count - Z)·10·W/(S - Z), to nearest.
fn tenths(cal: Calibration, count: i32) -> i64
    ensures { result ≡ tenths_of cal count }
{
    let from_zero = whole::difference(count, cal.zero);
    let weight = 10 * (cal.weight as i64);
    whole::nearest(from_zero * weight, cal.counts)
}

// What a count makes.
pub fn raw_of(cal: Calibration, count: i32) -> Option<i32>
    ensures { result ≡ raw_of cal count }
{
    if !is_good(count) {
        return None;
    }
    let raw = tenths(cal, count);
    if whole::magnitude(raw) <= RAW_LIMIT {
        Some(raw as i32)
    } else {
        None
    }
}
