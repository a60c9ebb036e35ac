//! What C asks of a machine.

ghost use Rattle.std.specs.Prelude.{◌≡◌, ◌≢◌, ◌≤◌, IfOk, IfErr};
ghost use Rattle.mos65_c.specs.Status.{config_map, config_status, port_of, rom_of};

use crate::machine::MISUSE;
use bus::{MapSpec, Port};

/// The number of `BadMap`, and 500.
const BAD_MAP: u32 = 501;

/// A machine's history, map and profile.
#[repr(C)]
#[derive(Clone, Copy, Drop)]
pub struct Config {
    /// How many events are held, at most 65,536.
    pub history: u32,
    /// The first of the port's four addresses, or $FFFF for no port.
    pub port: u16,
    pub rom_first: u16,
    pub rom_last: u16,
    pub has_rom: bool,
    /// The letter N or C.
    pub profile: u8,
}

fn rom(config: &Config) -> Option<(u16, u16)>
    ensures { result ≡ rom_of config.now }
{
    if config.has_rom {
        Some((config.rom_first, config.rom_last))
    } else {
        None
    }
}

/// Returns the port of a configuration, or none.
fn port(config: &Config) -> Port
    ensures { result ≡ port_of config.now }
{
    if config.port == 0xffff {
        Port::none()
    } else {
        Port::based(config.port)
    }
}

/// Returns the map of a configuration, or the status that refuses it.
#[tactic(auto, unfolding(crate::specs::Status::config_status))]
pub fn map_of(config: &Config) -> Result<MapSpec, u32>
    ensures ok { IfOk result (λ map. (map ≡ config_map config.now) × (config_status config.now ≡ 0)
        × (config.now.history ≤ 65536)) }
    ensures err { IfErr result (λ status. (status ≡ config_status config.now) × (status ≢ 0)) }
    // It is no status of a session's fault.
    ensures own { IfErr result (λ status. status ≢ 205) }
{
    if config.history > 65536 || (config.profile != b'N' && config.profile != b'C') {
        return Err(MISUSE);
    }
    match MapSpec::at(rom(config), port(config)) {
        Ok(map) => {
            if config.profile == b'C' {
                Ok(map.profile_c())
            } else {
                Ok(map)
            }
        }
        Err(_) => Err(BAD_MAP),
    }
}
