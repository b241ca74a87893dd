// Request A5: the setpoints that are written while a batch or a discharge runs wait until its stage is 00 again.
ghost use Rattle.std.specs.Prelude.{◌≡◌};
ghost use Rattle.outline.specs.Setpoints.{latest_of};

use types::stages::Setpoints;

// The set that was written last: the waiting one if there is one, else the one in use. RS reads it, and it is in use once the stage is 00.
pub fn latest(p: Setpoints, w: Option<Setpoints>) -> Setpoints
    ensures { result ≡ latest_of p w }
{
    w.unwrap_or(p)
}
