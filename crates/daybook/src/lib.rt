// The day book. It is given raw and the refill contact and nothing else.
#![tactic(auto)]

ghost use Rattle.std.specs.Prelude.{◌≡◌, ◌-ℤ◌, Some};
ghost use Rattle.outline.specs.DayBook.{open_book, booked_of, in_day, day_count, later_good, book_of, closed_of};

use types::daybook::Book;

// The ticks of a day that are booked.
const DAY_TICKS: u32 = 8_640_000;

// A sum stops at it: a guard that no run meets.
const BOOK_LIMIT: u64 = 69_120_000_000_000;

// A sum within it, on either side of zero, needs no stop: no change from one raw to another takes such a sum to the limit. It is a power of
// two that fits an instruction, so that a machine tests both ends at once: as many tenths as some thousand tanks a day.
const BOOK_PLAIN: i64 = 1_073_741_824;

// The book of an opening: no good tick yet.
pub fn open_book() -> Book
    ensures { result ≡ open_book }
{
    Book {
        begun: false,
        contact: false,
        opening: 0,
        last: 0,
        refilled: 0,
        used: 0,
        unbooked: 0,
        ticks: 0,
    }
}

// This tick is one of those that are booked.
fn is_in_day(b: Book) -> bool
    ensures { result ≡ in_day b }
{
    b.ticks < DAY_TICKS
}

fn counted(b: Book) -> u32
    ensures { result ≡ day_count b }
{
    if is_in_day(b) { b.ticks + 1 } else { b.ticks }
}

// A sum and the change from one raw to another.
fn booked(sum: i64, to: i32, from: i32) -> i64
    ensures { result ≡ booked_of sum (to -ℤ from) }
{
    if 0 - BOOK_PLAIN <= sum && sum < BOOK_PLAIN {
        return sum + whole::difference(to, from);
    }
    whole::limited(
        whole::limited(sum, BOOK_LIMIT) + whole::difference(to, from),
        BOOK_LIMIT,
    )
}

// Step 2 at a good tick after the first. What changes in the tick after the valve shut belongs to the refill too.
fn later_good(mut b: Book, raw: i32, contact: bool) -> Book
    ensures { result ≡ later_good b raw contact }
{
    let last = b.last;
    let refill = contact | b.contact;
    b.begun = true;
    b.contact = contact;
    b.last = raw;
    if is_in_day(b) {
        b.ticks += 1;
        if refill {
            b.refilled = booked(b.refilled, raw, last);
            return b;
        }
        b.used = booked(b.used, last, raw);
        return b;
    }
    b.unbooked = booked(b.unbooked, last, raw);
    b
}

// Step 2 at a good tick.
fn good_tick(mut b: Book, raw: i32, contact: bool) -> Book
    ensures { result ≡ book_of b (Some raw) contact }
{
    if b.begun {
        return later_good(b, raw, contact);
    }
    let ticks = counted(b);
    b.begun = true;
    b.contact = contact;
    b.opening = raw;
    b.last = raw;
    b.ticks = ticks;
    b
}

// Step 2.
pub fn book_tick(mut b: Book, raw: Option<i32>, contact: bool) -> Book
    ensures { result ≡ book_of b raw contact }
{
    match raw {
        None => {
            let ticks = counted(b);
            b.ticks = ticks;
            b
        }
        Some(t) => good_tick(b, t, contact),
    }
}

// The book after a day close: the day's last good raw opens the next, and a splash across the close is still the refill's.
pub fn closed_book(b: Book) -> Book
    ensures { result ≡ closed_of b }
{
    Book {
        begun: b.begun,
        contact: b.contact,
        opening: b.last,
        last: b.last,
        refilled: 0,
        used: 0,
        unbooked: 0,
        ticks: 0,
    }
}
