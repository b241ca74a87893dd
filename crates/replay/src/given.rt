// The settings line: 25 whole numbers separated by single spaces, in the order of the outline's table, and then those of a discharge.
use logs::numerals::number_at;
use types::settings::Given;

// How many numbers the line has.
const NUMBERS: usize = 25;

// The number that a word is, from its first byte to its last.
pub(crate) fn number_of(word: &[u8]) -> Option<i32> {
    let read = number_at(word, 0)?;
    if read.end == word.len() {
        Some(read.value)
    } else {
        None
    }
}

fn read_numbers(line: &[u8]) -> Option<[i32; NUMBERS]> {
    let mut numbers = [0; NUMBERS];
    let mut words = line.split(|&byte| byte == b' ');
    for number in numbers.iter_mut() {
        *number = number_of(words.next()?)?;
    }
    match words.next() {
        None => Some(numbers),
        Some(_) => None,
    }
}

pub(crate) fn given_line(line: &[u8]) -> Option<Given> {
    let [
        zero,
        span,
        capacity,
        weight,
        division,
        zeroing,
        tracktime,
        trackwidth,
        allowance,
        stabletime,
        stablewidth,
        mode,
        start,
        large,
        medium,
        small,
        judge,
        flow,
        address,
        board,
        low,
        high,
        dischargestart,
        dischargeend,
        dischargelimit,
    ] = read_numbers(line)?;
    Some(Given {
        zero,
        span,
        capacity,
        weight,
        division,
        zeroing,
        tracktime,
        trackwidth,
        allowance,
        stabletime,
        stablewidth,
        mode,
        start,
        large,
        medium,
        small,
        judge,
        flow,
        address,
        board,
        low,
        high,
        dischargestart,
        dischargeend,
        dischargelimit,
    })
}
