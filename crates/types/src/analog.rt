// The analog board and what it is given to put out.

#[derive(Clone, Copy)]
pub enum Board {
    Current,
    Voltage,
}

// The low end and D = high - low, made once when settings are accepted.
#[derive(Clone, Copy)]
pub struct Scale {
    pub low: f64,
    pub span: f64,
}

// A current in mA, or a voltage in V.
#[derive(Clone, Copy)]
pub enum Analog {
    Current(f64),
    Voltage(f64),
}
