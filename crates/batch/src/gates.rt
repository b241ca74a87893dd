// The gates that each stage opens.
ghost use Rattle.std.specs.Prelude.{◌≡◌};
ghost use Rattle.outline.specs.Stages.{gates_of};

use types::stages::{Gates, Setpoints, Stage};

// The open gates. In the table: large, medium, small, discharge.
pub fn open_gates(p: Setpoints, stage: Stage) -> Gates
    ensures { result ≡ gates_of p stage }
{
    let medium = p.preliminary != 0;
    match stage {
        Stage::Idle => gates(false, false, false, false),
        Stage::StartDelay(_) => gates(false, false, false, false),
        Stage::LargeDisable(_) => gates(true, medium, true, false),
        Stage::LargeFlow => gates(true, medium, true, false),
        Stage::MediumDisable(_) => gates(false, medium, true, false),
        Stage::MediumFlow => gates(false, medium, true, false),
        Stage::SmallDisable(_) => gates(false, false, true, false),
        Stage::SmallFlow => gates(false, false, true, false),
        Stage::JudgeDelay(_) => gates(false, false, false, false),
        Stage::JudgeWait => gates(false, false, false, false),
        Stage::DischargeStart(_) => gates(false, false, false, false),
        Stage::Discharge => gates(false, false, false, true),
        Stage::DischargeEnd(_) => gates(false, false, false, true),
    }
}

// In the order of the table above.
fn gates(large: bool, medium: bool, small: bool, discharge: bool) -> Gates
    ensures { result ≡ (record { large = large; medium = medium; small = small; discharge = discharge }) }
{
    Gates {
        large,
        medium,
        small,
        discharge,
    }
}
