// What the ticket program runs under and what it prints: settings A, a ticket's text, the text of a line that could not be read. A text
// stands at the start of the lent buffer or not at all; bytes behind it stay.
ghost use Rattle.std.specs.Prelude.{◌≡◌};
ghost use Rattle.outline.specs.Figures.{given_of, list_a};
ghost use Rattle.outline.specs.Replies.{written_of};
ghost use Rattle.outline.specs.Ticket.{ticket_text, refused_text, fitted_in};
ghost use Rattle.logs.specs.Amounts.{amounts_of};

use crate::pairs::{Amount, amount_of, write_text};
use types::daybook::Book;
use types::settings::Given;
use types::stages::Totals;
use types::weight::Weighing;

// Settings A of the outline, with a discharge's.
pub fn settings_a() -> Given
    ensures { result ≡ given_of list_a }
{
    Given {
        zero: 0,
        span: 100_000,
        capacity: 10_000,
        weight: 10_000,
        division: 1,
        zeroing: 2,
        tracktime: 100,
        trackwidth: 5,
        allowance: 20,
        stabletime: 100,
        stablewidth: 2,
        mode: 1,
        start: 0,
        large: 0,
        medium: 0,
        small: 0,
        judge: 0,
        flow: 6_000,
        address: 0,
        board: 0,
        low: 0,
        high: 10_000,
        dischargestart: 0,
        dischargeend: 0,
        dischargelimit: 6_000,
    }
}

// The numbers of a ticket in the order of its lines: those of the day that was closed, and those that are as the tick leaves them.
fn amounts_of(book: Book, weighing: Weighing, totals: Totals) -> [Amount; 8]
    ensures { result ≡ amounts_of book weighing totals }
{
    [
        amount_of(i64::from(book.opening)),
        amount_of(book.refilled),
        amount_of(book.used),
        amount_of(book.unbooked),
        amount_of(i64::from(book.last)),
        amount_of(i64::from(weighing.tracked)),
        Amount {
            minus: false,
            size: u64::from(totals.count),
        },
        Amount {
            minus: false,
            size: totals.total,
        },
    ]
}

// A ticket, where the tick closed a day; else no byte. The answer is the count of its bytes, 0 too where they do not fit.
#[tactic(auto, unfolding(crate::specs::Amounts::marks))]
pub fn write_ticket(
    out: &mut [u8],
    closed: Option<Book>,
    weighing: Weighing,
    totals: Totals,
) -> usize
    ensures count { result ≡ fitted_in (ticket_text closed weighing totals) out.old }
    ensures bytes { out.new ≡ written_of (ticket_text closed weighing totals) out.old }
{
    let Some(book) = closed else {
        return 0;
    };
    write_text(
        out,
        b"opening=refilled=used=unbooked=closing=tracked=batches=total=",
        &amounts_of(book, weighing, totals),
    )
}

// The line with this number can't be read.
#[tactic(auto, unfolding(crate::specs::Amounts::marks))]
pub fn write_refused(out: &mut [u8], number: u64) -> usize
    ensures count { result ≡ fitted_in (refused_text number) out.old }
    ensures bytes { out.new ≡ written_of (refused_text number) out.old }
{
    let a = Amount {
        minus: false,
        size: number,
    };
    write_text(out, b"refused=", &[a])
}
