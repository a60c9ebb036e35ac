//! The targets of branches.

ghost use Rattle.std.specs.Prelude.{◌≡◌};
ghost use Rattle.model.specs.InstructionText.{target_of};

/// Returns the target of a branch at an address, by its second byte.
pub fn branch_target(address: u16, second: u8) -> u16
    ensures { result ≡ target_of address second }
{
    let next = address as u32 + 2;
    let distance = if second < 128 {
        second as u32
    } else {
        second as u32 + 65280
    };
    ((next + distance) % 65536) as u16
}
