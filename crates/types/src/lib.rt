// The types of the machine: settings as given and as accepted, the state in its parts, requests, answers, outputs, lines and logs.
// Nothing is done here; the definitions over these types are those of the crate outline.
#![tactic(auto)]

pub mod analog;
pub mod daybook;
pub mod lines;
pub mod log;
pub mod machine;
pub mod requests;
pub mod settings;
pub mod stages;
pub mod weight;
