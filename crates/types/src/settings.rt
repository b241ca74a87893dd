// Settings as they are given, and as they are accepted.
use crate::analog::{Board, Scale};

// Every row of the outline's table, and then those of a discharge, as numbers that may lie outside their ranges. The board's numbers are
// the house's.
#[derive(Clone, Copy)]
pub struct Given {
    // zero count Z and span count S
    pub zero: i32,
    pub span: i32,
    // capacity C and span weight W, in divisions
    pub capacity: i32,
    pub weight: i32,
    // division d
    pub division: i32,
    // zero range p, in % of C
    pub zeroing: i32,
    // tracking time q, width w, allowance L
    pub tracktime: i32,
    pub trackwidth: i32,
    pub allowance: i32,
    // stability time k and width s
    pub stabletime: i32,
    pub stablewidth: i32,
    // 1 normal, 2 loss-in-weight
    pub mode: i32,
    // start delay; large, medium, small comparison disable; judge delay
    pub start: i32,
    pub large: i32,
    pub medium: i32,
    pub small: i32,
    pub judge: i32,
    // flow limit Q
    pub flow: i32,
    pub address: i32,
    // 0 none, 1 current, 2 voltage; low and high end
    pub board: i32,
    pub low: i32,
    pub high: i32,
    // discharge: start delay, end delay, limit
    pub dischargestart: i32,
    pub dischargeend: i32,
    pub dischargelimit: i32,
}

// Z; the counts from Z to S, S - Z; W.
#[derive(Clone, Copy)]
pub struct Calibration {
    pub zero: i32,
    pub counts: u32,
    pub weight: u16,
}

// C, d and p.
#[derive(Clone, Copy)]
pub struct Range {
    pub capacity: u16,
    pub division: u8,
    pub zeroing: u8,
}

// q, w and L.
#[derive(Clone, Copy)]
pub struct Tracking {
    pub time: u16,
    pub width: u8,
    pub allowance: u16,
}

// k and s.
#[derive(Clone, Copy)]
pub struct Steadiness {
    pub time: u16,
    pub width: u8,
}

#[derive(Clone, Copy)]
pub enum Mode {
    Normal,
    Loss,
}

// A discharge: its start delay, end delay and limit.
#[derive(Clone, Copy)]
pub struct Discharging {
    pub start: u16,
    pub end: u16,
    pub limit: u16,
}

// The mode, the five delays, the flow limit Q, and what a discharge goes by.
#[derive(Clone, Copy)]
pub struct Batching {
    pub mode: Mode,
    pub start: u16,
    pub large: u16,
    pub medium: u16,
    pub small: u16,
    pub judge: u16,
    pub flow: u16,
    pub discharge: Discharging,
}

// Accepted settings.
#[derive(Clone, Copy)]
pub struct Settings {
    pub calibration: Calibration,
    pub range: Range,
    pub tracking: Tracking,
    pub steadiness: Steadiness,
    pub batching: Batching,
    pub address: u8,
    pub board: Option<Board>,
    pub scale: Scale,
}
