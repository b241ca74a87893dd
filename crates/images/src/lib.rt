// Images: a state in 288 bytes and settings in 128, as docs/IMAGES.md fixes them. The parts of a state are read and written in their
// places; an image is judged by its bytes and by its ranges. Nothing is kept here.
#![tactic(auto)]

ghost use Rattle.images.specs.Figures.{Imaged, Judged, Earlier};
ghost use Rattle.images.specs.Owed.{ReadBack, OneImage, UnusedZero, GivenBack, OneGiven, UnusedGiven, Decides, RunsPass, FromImages};
ghost use Rattle.images.specs.Owed.{EarlierPass, Grows, EarlierRead};

pub mod given;
mod names;
pub mod parts;
pub mod possible;
pub mod refusals;
pub mod state;

// Figures of images and what images owe. It does nothing: it stands here so that the check's list names the statements, and misses them
// if a proof goes.
pub fn every_image()
    ensures imaged { Imaged }
    ensures judged { Judged }
    ensures earlier { Earlier }
    ensures read_back { ReadBack }
    ensures one_image { OneImage }
    ensures unused_zero { UnusedZero }
    ensures given_back { GivenBack }
    ensures one_given { OneGiven }
    ensures unused_given { UnusedGiven }
    ensures decides { Decides }
    ensures runs_pass { RunsPass }
    ensures earlier_pass { EarlierPass }
    ensures from_images { FromImages }
    ensures grows { Grows }
    ensures earlier_read { EarlierRead }
{}
