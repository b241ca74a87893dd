// The prefix by which a line names its address, as it is read and as it is written.
ghost use Rattle.std.specs.Prelude.{◌≡◌};
ghost use Rattle.outline.specs.Lines.{prefix_length};

// "@" and two digits.
const PREFIX_LENGTH: u8 = 3;

// The bytes of the prefix that a line to an address begins with. Address 0 looks for none.
#[tactic(auto, unfolding(outline::specs::Lines::prefix_length))]
pub fn prefix_length(address: u8) -> u8
    ensures { result ≡ prefix_length address }
{
    if 0 < address { PREFIX_LENGTH } else { 0 }
}
