//! The map that an editor chooses.

ghost use Rattle.std.specs.Prelude.{◌≡◌};
ghost use Rattle.std.specs.Option.{option_map};
ghost use Rattle.word_lsp.specs.Settings.{chosen_after, chosen_map, is_wrong, map_at, map_by};
ghost use Rattle.word_lsp.specs.Settings.{map_in, or_before, port_by, profile_by};
ghost use Rattle.word_lsp.specs.Settings.{settings_asked, settings_noted};
ghost use Rattle.lsp_messages.specs.Settings.{setting_view, settings_view};
ghost use Rattle.lsp_messages.specs.Views.{request_view};

use crate::phase::Phase;
use arguments::{map_of, port_asked, profile_asked};
use bus::MapSpec;
use lsp_messages::{Request, Setting, Settings};
use memory_map::Port;
use model::Profile;

/// Returns the port of a map, or no port.
fn port_on(map: &MapSpec) -> Port
    ensures { result ≡ map.now.port }
{
    let base = map.port();
    if base < 65536 {
        Port::based(base as u16)
    } else {
        Port::none()
    }
}

/// Returns the port that a setting asks for, or this one where it is not set; nothing if the
/// setting is wrong.
fn port_by(port: Port, setting: Setting<'_>) -> Option<Port>
    ensures { result ≡ port_by port (setting_view setting.entry) }
{
    match setting {
        Setting::Unset => Some(port),
        Setting::Text(text) => port_asked(Some(text)),
        Setting::NoText => None,
    }
}

/// Returns the profile that a setting asks for, or this one where it is not set; nothing if the
/// setting is wrong.
fn profile_by(profile: Profile, setting: Setting<'_>) -> Option<Profile>
    ensures { result ≡ profile_by profile (setting_view setting.entry) }
{
    match setting {
        Setting::Unset => Some(profile),
        Setting::Text(text) => profile_asked(Some(text)),
        Setting::NoText => None,
    }
}

/// Returns the map with this port, if they make one.
fn map_at(port: Port, profile: Profile) -> Option<MapSpec>
    ensures { result ≡ map_at port profile }
{
    match map_of(profile, None, port) {
        Ok(map) => Some(map),
        Err(_) => None,
    }
}

/// Returns the map of a port and a profile, if there are both and they make one.
fn map_by(port: Option<Port>, profile: Option<Profile>) -> Option<MapSpec>
    ensures { result ≡ map_by port profile }
{
    match (port, profile) {
        (Some(port), Some(profile)) => map_at(port, profile),
        _ => None,
    }
}

/// Returns the map that settings choose over that of the words of the command line; nothing if one
/// of them is wrong.
pub fn chosen_map(words: &MapSpec, settings: &Settings<'_>) -> Option<MapSpec>
    ensures { result ≡ chosen_map words.now (settings_view settings.now) }
{
    let port = port_by(port_on(words), settings.port);
    let profile = profile_by(words.profile(), settings.profile);
    map_by(port, profile)
}

/// Returns whether one of some settings is wrong.
pub fn is_wrong(words: &MapSpec, settings: Option<Settings<'_>>) -> bool
    ensures { result ≡ is_wrong words.now (option_map settings_view settings.entry) }
{
    match settings {
        Some(settings) => chosen_map(words, &settings).is_none(),
        None => false,
    }
}

/// Returns a map, or the one before where there is none.
fn or_before(map: Option<MapSpec>, before: Option<MapSpec>) -> Option<MapSpec>
    ensures { result ≡ or_before map before }
{
    match map {
        Some(map) => Some(map),
        None => before,
    }
}

/// Returns the map that an editor has chosen after it has set something, where this was it before.
pub fn chosen_after(
    words: &MapSpec,
    before: Option<MapSpec>,
    settings: Option<Settings<'_>>,
) -> Option<MapSpec>
    ensures { result
        ≡ chosen_after words.now before (option_map settings_view settings.entry) }
{
    match settings {
        Some(settings) => or_before(chosen_map(words, &settings), before),
        None => before,
    }
}

/// Returns what a request sets in a phase.
pub fn settings_asked<'a>(phase: Phase, request: Request<'a>) -> Option<Settings<'a>>
    ensures { option_map settings_view result
        ≡ settings_asked phase (request_view request.entry) }
{
    match phase {
        Phase::Fresh => match request {
            Request::Initialize { settings, .. } => settings,
            _ => None,
        },
        Phase::Running(_) | Phase::ShutDown => None,
    }
}

/// Returns what a notice sets in a phase.
pub fn settings_noted<'a>(phase: Phase, request: Request<'a>) -> Option<Settings<'a>>
    ensures { option_map settings_view result
        ≡ settings_noted phase (request_view request.entry) }
{
    match phase {
        Phase::Running(_) => match request {
            Request::Configure { settings } => settings,
            _ => None,
        },
        Phase::Fresh | Phase::ShutDown => None,
    }
}

/// Returns the map in use: the one that an editor has chosen, or that of the words.
pub fn map_in(words: &MapSpec, chosen: Option<MapSpec>) -> MapSpec
    ensures { result ≡ map_in words.now chosen }
{
    match chosen {
        Some(map) => map,
        None => *words,
    }
}
