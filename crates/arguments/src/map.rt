//! The map that words ask for.
ghost use Rattle.std.specs.Prelude.{◌≡◌, ◌↔◌, IsErr, IfErr, IfOk, false, true};
ghost use Rattle.model.specs.State.{is_map};
ghost use Rattle.model.specs.declared.bus_fault.BusFault.TheVariants.{BadMap};

use memory_map::{MapSpec, Port};
use model::{BusFault, Profile};

/// Returns the map of a profile with this port, or none, and this ROM, or none.
///
/// # Errors
///
/// `BadMap`: the port and the ROM do not make a map.
pub fn map_of(profile: Profile, rom: Option<(u16, u16)>, port: Port) -> Result<MapSpec, BusFault>
    ensures map { IfOk result (λ map. map ≡ record { profile = profile; rom = rom; port = port }) }
    ensures is_map { IfOk result (λ _. is_map rom port ≡ true) }
    ensures bad { IsErr result ↔ (is_map rom port ≡ false) }
    ensures only { IfErr result (λ fault. fault ≡ BadMap) }
{
    let map = MapSpec::at(rom, port)?;
    // For the proof: what a map says of itself.
    map.is_map();
    match profile {
        Profile::N => Ok(map),
        Profile::C => Ok(map.profile_c()),
    }
}
