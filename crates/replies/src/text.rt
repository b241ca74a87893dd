// The text of each kind of reply, between prefix and CR LF.
ghost use Rattle.std.specs.Prelude.{◌≡◌, cond, ◌+◌, ◌≤◌, length, Some};
ghost use Rattle.outline.specs.Replies.{sign_byte, amount_text, weight_text, total_text, points_text, refused_text, digits_of};
ghost use Rattle.replies.specs.Put.{Put};
ghost use Rattle.outline.specs.Texts.{text_of, text_length};

use crate::put::{put_byte, put_bytes, put_digits, put_letters};
use types::lines::{Reply, Shown};
use types::stages::Setpoints;

// stable
const ST: u16 = 0x5354;

// unstable
const US: u16 = 0x5553;

// overloaded, or a bad tick
const OL: u16 = 0x4F4C;

// gross
const GS: u16 = 0x4753;

// net
const NT: u16 = 0x4E54;

const KG: u16 = 0x6B67;

// refused
const NG: u16 = 0x4E47;

const AMOUNT_DIGITS: usize = 7;

const TOTAL_DIGITS: usize = 8;

const SETPOINT_DIGITS: usize = 6;

const REFUSAL_DIGITS: usize = 2;

// Bytes of each kind of text.
const LETTERS_BYTES: usize = 2;

const WEIGHT_BYTES: usize = 16;

const TOTAL_BYTES: usize = 17;

const POINTS_BYTES: usize = 42;

const REFUSED_BYTES: usize = 4;

fn status_letters(w: Shown) -> u16
    ensures { result ≡ cond w.fit (cond w.stable 0x5354 0x5553) 0x4F4C }
{
    if w.fit {
        if w.stable { ST } else { US }
    } else {
        OL
    }
}

fn display_letters(w: Shown) -> u16
    ensures { result ≡ cond w.net 0x4E54 0x4753 }
{
    if w.net { NT } else { GS }
}

fn sign_byte(w: Shown) -> u8
    ensures { result ≡ sign_byte w }
{
    if w.negative { b'-' } else { b'+' }
}

// Digits, or spaces where there is no weight to show.
fn put_amount(buffer: &mut [u8], at: usize, w: Shown) -> usize
    requires { at + 7 ≤ length buffer.old }
    ensures { Put buffer.old at (amount_text w) buffer.new result 7 }
{
    if w.fit {
        put_digits(buffer, at, AMOUNT_DIGITS, w.amount)
    } else {
        put_bytes(buffer, at, b"       ")
    }
}

// As ST,GS,+0004421kg.
fn put_weight(buffer: &mut [u8], at: usize, w: Shown) -> usize
    requires { at + 16 ≤ length buffer.old }
    ensures { Put buffer.old at (weight_text w) buffer.new result 16 }
{
    let n = put_letters(buffer, at, status_letters(w));
    let n = put_bytes(buffer, n, b",");
    let n = put_letters(buffer, n, display_letters(w));
    let n = put_byte(buffer, n, b',');
    let n = put_byte(buffer, n, sign_byte(w));
    let n = put_amount(buffer, n, w);
    put_letters(buffer, n, KG)
}

fn put_total(buffer: &mut [u8], at: usize, total: u64, count: u32) -> usize
    requires { at + 17 ≤ length buffer.old }
    ensures { Put buffer.old at (total_text total count) buffer.new result 17 }
{
    let n = put_digits(buffer, at, TOTAL_DIGITS, total);
    let n = put_bytes(buffer, n, b",");
    put_digits(buffer, n, TOTAL_DIGITS, u64::from(count))
}

fn put_setpoint(buffer: &mut [u8], at: usize, value: u32) -> usize
    requires { at + 6 ≤ length buffer.old }
    ensures { Put buffer.old at (digits_of 6 value) buffer.new result 6 }
{
    put_digits(buffer, at, SETPOINT_DIGITS, u64::from(value))
}

fn put_points(buffer: &mut [u8], at: usize, p: Setpoints) -> usize
    requires { at + 42 ≤ length buffer.old }
    ensures { Put buffer.old at (points_text p) buffer.new result 42 }
{
    let n = put_setpoint(buffer, at, p.target);
    let n = put_setpoint(buffer, n, p.fall);
    let n = put_setpoint(buffer, n, p.preliminary);
    let n = put_setpoint(buffer, n, p.optional);
    let n = put_setpoint(buffer, n, p.over);
    let n = put_setpoint(buffer, n, p.under);
    put_setpoint(buffer, n, p.near)
}

#[tactic(auto, using(crate::specs::Writers::more), unfolding(outline::specs::Replies::refused_text))]
fn put_refused(buffer: &mut [u8], at: usize, number: u8) -> usize
    requires { at + 4 ≤ length buffer.old }
    ensures { Put buffer.old at (refused_text number) buffer.new result 4 }
{
    let n = put_letters(buffer, at, NG);
    put_digits(buffer, n, REFUSAL_DIGITS, u64::from(number))
}

pub(crate) fn text_length(r: Reply) -> usize
    ensures { result ≡ text_length (Some r) }
{
    match r {
        Reply::Letters(_) => LETTERS_BYTES,
        Reply::Weight(_) => WEIGHT_BYTES,
        Reply::Total(_, _) => TOTAL_BYTES,
        Reply::Points(_) => POINTS_BYTES,
        Reply::Refused(_) => REFUSED_BYTES,
    }
}

pub(crate) fn put_text(buffer: &mut [u8], at: usize, r: Reply) -> usize
    requires { at + text_length (Some r) ≤ length buffer.old }
    ensures { Put buffer.old at (text_of (Some r)) buffer.new result (text_length (Some r)) }
{
    match r {
        Reply::Letters(k) => put_letters(buffer, at, k),
        Reply::Weight(w) => put_weight(buffer, at, w),
        Reply::Total(total, count) => put_total(buffer, at, total, count),
        Reply::Points(p) => put_points(buffer, at, p),
        Reply::Refused(number) => put_refused(buffer, at, number),
    }
}
