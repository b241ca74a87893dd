// What is made of settings, once at opening, where every number is in its range.
#![tactic(auto)]

ghost use Rattle.std.specs.Prelude.{◌≡◌, true};
ghost use Rattle.outline.specs.Settings.{settings_fit, mode_of, board_of, settings_of, open_of};

use types::analog::Board;
use types::settings::{
    Batching, Calibration, Discharging, Given, Mode, Range, Settings, Steadiness, Tracking,
};

mod ranges;

// Mode 1, or 2 where the number is any other.
pub fn mode_of(m: i32) -> Mode
    ensures { result ≡ mode_of m }
{
    if m == 1 { Mode::Normal } else { Mode::Loss }
}

fn board_of(b: i32) -> Option<Board>
    ensures { result ≡ board_of b }
{
    match b {
        1 => Some(Board::Current),
        2 => Some(Board::Voltage),
        _ => None,
    }
}

// What is made of settings that passed the check, in types as narrow as their ranges: part by part, then whole.
// A struct of checked settings with this as its invariant was tried in place of the clause: the casts' proofs didn't close.
fn calibration_of(g: Given) -> Calibration
    requires { settings_fit g ≡ true }
    ensures { result ≡ (settings_of g).calibration }
{
    let zero = g.zero;
    let counts = whole::difference(g.span, zero);
    Calibration {
        zero,
        counts: counts as u32,
        weight: g.weight as u16,
    }
}

fn range_of(g: Given) -> Range
    requires { settings_fit g ≡ true }
    ensures { result ≡ (settings_of g).range }
{
    Range {
        capacity: g.capacity as u16,
        division: g.division as u8,
        zeroing: g.zeroing as u8,
    }
}

fn tracking_of(g: Given) -> Tracking
    requires { settings_fit g ≡ true }
    ensures { result ≡ (settings_of g).tracking }
{
    Tracking {
        time: g.tracktime as u16,
        width: g.trackwidth as u8,
        allowance: g.allowance as u16,
    }
}

fn steadiness_of(g: Given) -> Steadiness
    requires { settings_fit g ≡ true }
    ensures { result ≡ (settings_of g).steadiness }
{
    Steadiness {
        time: g.stabletime as u16,
        width: g.stablewidth as u8,
    }
}

fn discharging_of(g: Given) -> Discharging
    requires { settings_fit g ≡ true }
    ensures { result ≡ (settings_of g).batching.discharge }
{
    Discharging {
        start: g.dischargestart as u16,
        end: g.dischargeend as u16,
        limit: g.dischargelimit as u16,
    }
}

fn batching_of(g: Given) -> Batching
    requires { settings_fit g ≡ true }
    ensures { result ≡ (settings_of g).batching }
{
    Batching {
        mode: mode_of(g.mode),
        start: g.start as u16,
        large: g.large as u16,
        medium: g.medium as u16,
        small: g.small as u16,
        judge: g.judge as u16,
        flow: g.flow as u16,
        discharge: discharging_of(g),
    }
}

// All parts, with the two floats made once.
fn made(g: Given) -> Settings
    requires { settings_fit g ≡ true }
    ensures { result ≡ settings_of g }
{
    Settings {
        calibration: calibration_of(g),
        range: range_of(g),
        tracking: tracking_of(g),
        steadiness: steadiness_of(g),
        batching: batching_of(g),
        address: g.address as u8,
        board: board_of(g.board),
        scale: analog::scale_of(g.low, g.high),
    }
}

// The opening: 10, or the settings as accepted.
pub fn open(g: Given) -> Option<Settings>
    ensures { result ≡ open_of g }
{
    if !crate::ranges::settings_fit(g) {
        return None;
    }
    Some(made(g))
}
