// The answer of a tick, output by output at its place. The table is that of specs/AnswerImage.antt.
ghost use Rattle.std.specs.Prelude.{◌≡◌};
ghost use Rattle.places.specs.Places.{put_all};
ghost use Rattle.board.specs.AnswerImage.{weight_rows, weight_numbers, gate_rows, gate_numbers, signal_rows, signal_numbers, length_byte};
ghost use Rattle.board.specs.AnswerImage.{gross_rows, gross_numbers, float_bits, analog_bits, value_rows, value_numbers};
ghost use Rattle.board.specs.InPlace.{beside_rows, beside_numbers, closed_put, outputs_put};

use numbers::{analog_number, error_number, judgement_number, stage_number};
use types::analog::Analog;
use types::daybook::Book;
use types::machine::{Answer, Reading};
use types::stages::Gates;

#[tactic(auto, unfolding(places::specs::Places::put_all, places::specs::Places::flag_tag))]
fn put_weights(s: &mut [u8], n: u8, x: Reading)
    ensures { s.new ≡ put_all weight_rows (weight_numbers n x) s.old }
{
    places::put(s, 0, n);
    places::put(s, 1, x.good);
    places::put(s, 2, x.overload);
    places::put(s, 3, x.stable);
}

#[tactic(auto, unfolding(places::specs::Places::put_all, places::specs::Places::flag_tag))]
fn put_gates(s: &mut [u8], stage: u8, g: Gates)
    ensures { s.new ≡ put_all gate_rows (gate_numbers stage g) s.old }
{
    places::put(s, 4, stage);
    places::put(s, 5, g.large);
    places::put(s, 6, g.medium);
    places::put(s, 7, g.small);
    places::put(s, 8, g.discharge);
}

#[tactic(auto, unfolding(places::specs::Places::put_all, places::specs::Places::flag_tag))]
fn put_signals(s: &mut [u8], a: Answer)
    ensures { s.new ≡ put_all signal_rows (signal_numbers a) s.old }
{
    places::put(s, 9, judgement_number(a.judgement));
    places::put(s, 10, error_number(a.error));
    places::put(s, 11, a.near);
    places::put(s, 12, a.full);
}

// No reply has as many bytes as 256.
#[tactic(auto, unfolding(crate::specs::AnswerImage::length_byte))]
fn length_byte(n: usize) -> u8
    ensures { result ≡ length_byte n }
{
    if n < 256 { n as u8 } else { 255 }
}

#[tactic(auto, unfolding(places::specs::Places::put_all))]
fn put_beside(s: &mut [u8], length: usize, a: Answer)
    ensures { s.new ≡ put_all beside_rows (beside_numbers length a) s.old }
{
    places::put(s, 13, analog_number(a.analog));
    places::put(s, 15, length_byte(length));
}

#[tactic(auto, unfolding(places::specs::Places::put_all, places::specs::Places::coded))]
fn put_gross(s: &mut [u8], x: Reading)
    ensures { s.new ≡ put_all gross_rows (gross_numbers x) s.old }
{
    places::put(s, 16, x.gross);
    places::put(s, 20, x.net);
}

// The day that was closed, or that none was: 0 in each of its places.
#[tactic(auto, unfolding(crate::specs::InPlace::closed_put, places::specs::Places::put_all, places::specs::Places::coded, places::specs::Places::flag_tag, crate::specs::AnswerImage::closed_flag, crate::specs::AnswerImage::closed_book))]
pub(crate) fn put_closed(s: &mut [u8], closed: Option<Book>)
    ensures { s.new ≡ closed_put closed s.old }
{
    let b = closed.unwrap_or(daybook::open_book());
    places::put(s, 14, closed.is_some());
    places::put(s, 24, b.opening);
    places::put(s, 28, b.last);
    places::put(s, 32, b.refilled);
    places::put(s, 40, b.used);
    places::put(s, 48, b.unbooked);
}

// No value is a NaN, which has no bits of its own.
// `x != x` as the definition has it: with `is_nan` the proof didn't close.
#[tactic(auto, unfolding(crate::specs::AnswerImage::float_bits))]
fn float_bits(x: f64) -> u64
    ensures { result ≡ float_bits x }
{
    if x != x {
        return 0;
    }
    x.to_bits()
}

#[tactic(auto, unfolding(crate::specs::AnswerImage::analog_bits))]
fn analog_bits(a: Option<Analog>) -> u64
    ensures { result ≡ analog_bits a }
{
    match a {
        None => 0,
        Some(Analog::Current(x) | Analog::Voltage(x)) => float_bits(x),
    }
}

#[tactic(auto, unfolding(places::specs::Places::put_all))]
fn put_value(s: &mut [u8], a: Answer)
    ensures { s.new ≡ put_all value_rows (value_numbers a) s.old }
{
    places::put(s, 56, analog_bits(a.analog));
}

// All but the closed day. n: what the call answers; length: the reply's. A byte past the end of the buffer is not written.
#[tactic(auto, unfolding(crate::specs::InPlace::outputs_put, places::specs::Places::put_all))]
pub(crate) fn put_outputs(s: &mut [u8], n: u8, length: usize, a: Answer)
    ensures { s.new ≡ outputs_put n length a s.old }
{
    put_weights(s, n, a.reading);
    put_gates(s, stage_number(a.stage), a.gates);
    put_signals(s, a);
    put_beside(s, length, a);
    put_gross(s, a.reading);
    put_value(s, a);
}
