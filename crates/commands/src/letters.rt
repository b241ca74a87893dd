// The two letters of each command, as one number of two bytes. This is the one table of them: a line is read by it, and an accepted
// request is replied by it.
ghost use Rattle.std.specs.Prelude.{◌≡◌, eqb, find};
ghost use Rattle.outline.specs.Lines.{letters_for, letters_of};

use types::lines::{Letters, Word};

// SS
pub const SET_LETTERS: u16 = 0x5353;

// The letters of a command that stands alone.
pub fn letters_for(w: Word) -> u16
    ensures { result ≡ letters_for w }
{
    match w {
        // RW
        Word::ReadWeight => 0x5257,
        // RT
        Word::ReadTotal => 0x5254,
        // RS
        Word::ReadSetpoints => 0x5253,
        // MZ
        Word::Zero => 0x4D5A,
        // MT
        Word::Tare => 0x4D54,
        // CT
        Word::TareClear => 0x4354,
        // MG
        Word::ShowGross => 0x4D47,
        // MN
        Word::ShowNet => 0x4D4E,
        // BB
        Word::Start => 0x4242,
        // HB
        Word::Stop => 0x4842,
        // DT
        Word::TotalClear => 0x4454,
        // CA
        Word::Undo => 0x4341,
        // DC
        Word::DayClose => 0x4443,
        // BD
        Word::Discharge => 0x4244,
    }
}

// The command that a pair of letters names. A table to look it up in would be an array, and no crate of the board makes one (bench/stack).
#[tactic(auto, unfolding(outline::specs::Lines::letters_of))]
pub(crate) fn letters_of(a: u8, b: u8) -> Option<Letters>
    ensures { result ≡ letters_of a b }
{
    let pair = u16::from(a) * 256 + u16::from(b);
    if pair == letters_for(Word::ReadWeight) {
        return Some(Letters::One(Word::ReadWeight));
    }
    if pair == letters_for(Word::ReadTotal) {
        return Some(Letters::One(Word::ReadTotal));
    }
    if pair == letters_for(Word::ReadSetpoints) {
        return Some(Letters::One(Word::ReadSetpoints));
    }
    if pair == letters_for(Word::Zero) {
        return Some(Letters::One(Word::Zero));
    }
    if pair == letters_for(Word::Tare) {
        return Some(Letters::One(Word::Tare));
    }
    if pair == letters_for(Word::TareClear) {
        return Some(Letters::One(Word::TareClear));
    }
    if pair == letters_for(Word::ShowGross) {
        return Some(Letters::One(Word::ShowGross));
    }
    if pair == letters_for(Word::ShowNet) {
        return Some(Letters::One(Word::ShowNet));
    }
    if pair == letters_for(Word::Start) {
        return Some(Letters::One(Word::Start));
    }
    if pair == letters_for(Word::Stop) {
        return Some(Letters::One(Word::Stop));
    }
    if pair == letters_for(Word::TotalClear) {
        return Some(Letters::One(Word::TotalClear));
    }
    if pair == letters_for(Word::Undo) {
        return Some(Letters::One(Word::Undo));
    }
    if pair == letters_for(Word::DayClose) {
        return Some(Letters::One(Word::DayClose));
    }
    if pair == letters_for(Word::Discharge) {
        return Some(Letters::One(Word::Discharge));
    }
    if pair == SET_LETTERS {
        return Some(Letters::Set);
    }
    None
}
