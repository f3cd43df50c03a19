// The reader of settings.
ghost use Rattle.std.specs.Prelude.{◌≡◌};
ghost use Rattle.rules.specs.Settings.{store_told, stored_settings};

use rules::{Refusal, Settings, Unread};
use settings_fields::{are_fields, settings_at, version_of};
use settings_values::{are_settings, is_version};

// What a reader that knows the versions up to `newest`, 1 or 2, reads: 60, newer or not, then 61, then 62, or the settings.
pub fn read_settings(newest: usize, s: &[u8]) -> Result<Settings, Unread>
    ensures { store_told result ≡ stored_settings newest s.now }
{
    if !is_version(newest) {
        return Err(Unread::Refused(Refusal::Version));
    }
    let Some(version) = version_of(s) else {
        return Err(Unread::Refused(Refusal::Version));
    };
    if version == 0 {
        return Err(Unread::Refused(Refusal::Version));
    }
    if newest < version {
        return Err(Unread::Newer);
    }
    if !are_fields(s, version) {
        return Err(Unread::Refused(Refusal::SettingsField));
    }
    let settings = settings_at(s, version);
    if !are_settings(settings) {
        return Err(Unread::Refused(Refusal::Setting));
    }
    Ok(settings)
}
