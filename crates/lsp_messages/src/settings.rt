//! The settings in a message.

ghost use Rattle.std.specs.Prelude.{◌≡◌};
ghost use Rattle.std.specs.Option.{option_map};
ghost use Rattle.lsp_messages.specs.Settings.{begun_with, first_of, section_at_start};
ghost use Rattle.lsp_messages.specs.Settings.{setting_at, setting_by, setting_in, setting_of};
ghost use Rattle.lsp_messages.specs.Settings.{setting_view, settings_at, settings_of};
ghost use Rattle.lsp_messages.specs.Settings.{settings_view, told_settings};
ghost use Rattle.serde_json.specs.View.{view};

use crate::asked::{Setting, Settings};
use serde_json::Value;

/// Returns a setting by whether it is `null`, and by its text if it is one.
fn setting_by<'a>(is_null: bool, text: Option<&'a str>) -> Setting<'a>
    ensures { setting_view result ≡ setting_by is_null (option_map (λ s. s.now) text.entry) }
{
    if is_null {
        return Setting::Unset;
    }
    match text {
        Some(text) => Setting::Text(text),
        None => Setting::NoText,
    }
}

/// Returns what a value sets.
fn setting_of(value: &Value) -> Setting<'_>
    ensures { setting_view result ≡ setting_of (view value.now) }
{
    setting_by(value.is_null(), value.as_str())
}

/// Returns what a value sets, if it is there.
fn setting_at<'a>(value: Option<&'a Value>) -> Setting<'a>
    ensures { setting_view result ≡ setting_at (option_map (λ v. view v.now) value.entry) }
{
    match value {
        Some(value) => setting_of(value),
        None => Setting::Unset,
    }
}

/// Returns what stands at a path of the settings.
fn setting_in<'a>(section: &'a Value, path: &str) -> Setting<'a>
    ensures { setting_view result ≡ setting_in path.now (view section.now) }
{
    setting_at(section.pointer(path))
}

/// Reads the settings of a section.
fn settings_of(section: &Value) -> Settings<'_>
    ensures { settings_view result ≡ settings_of (view section.now) }
{
    let port = setting_in(section, "/port");
    let profile = setting_in(section, "/profile");
    Settings { port, profile }
}

/// Reads the settings of a section, if it is there.
fn settings_at<'a>(section: Option<&'a Value>) -> Option<Settings<'a>>
    ensures { option_map settings_view result
        ≡ settings_at (option_map (λ v. view v.now) section.entry) }
{
    match section {
        Some(section) => Some(settings_of(section)),
        None => None,
    }
}

/// Returns a section, or another one where it is not there.
fn first_of<'a>(first: Option<&'a Value>, other: Option<&'a Value>) -> Option<&'a Value>
    ensures { option_map (λ v. view v.now) result ≡ first_of
        (option_map (λ v. view v.now) first.entry) (option_map (λ v. view v.now) other.entry) }
{
    match first {
        Some(section) => Some(section),
        None => other,
    }
}

/// Returns the section of the settings in `initialize`.
fn section_at_start(message: &Value) -> Option<&Value>
    ensures { option_map (λ v. view v.now) result ≡ section_at_start (view message.now) }
{
    let by_name = message.pointer("/params/initializationOptions/mos65");
    let alone = message.pointer("/params/initializationOptions");
    let other = first_of(by_name, alone);
    let within = message.pointer("/params/initializationOptions/settings/mos65");
    first_of(within, other)
}

/// Returns what a client sets with which it begins, if it has settings.
pub fn begun_with(message: &Value) -> Option<Settings<'_>>
    ensures { option_map settings_view result ≡ begun_with (view message.now) }
{
    settings_at(section_at_start(message))
}

/// Returns what `workspace/didChangeConfiguration` sets, if it has settings.
pub fn told_settings(message: &Value) -> Option<Settings<'_>>
    ensures { option_map settings_view result ≡ told_settings (view message.now) }
{
    settings_at(message.pointer("/params/settings/mos65"))
}
