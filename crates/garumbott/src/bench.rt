// The settings of a bench.
ghost use Rattle.std.specs.Prelude.{◌≡◌, length};
ghost use Rattle.rules.specs.Bytes.{over};
ghost use Rattle.rules.specs.Settings.{store_told, store_values, stored_settings, written_settings};
ghost use Rattle.rules.specs.Answer.{written_of, bytes_of};
ghost use Rattle.host_told.specs.Told.{length_of};
ghost use Rattle.garumbott.specs.Kept.{settings_numbers, host_settings};

use host_told::GarumbottLength;
use rules::{Refusal, Settings, Unread};
use settings::{read_settings, write_settings};

// Document 02's number and values for each case of a store that is read.
#[repr(C)]
#[derive(Clone, Copy)]
pub struct GarumbottSettings {
    pub refusal: u64,
    pub newer: u64,
    pub version: u64,
    pub table: u64,
    pub profile: u64,
    pub width: u64,
    pub longest: u64,
}

// A refusal's number and the mark of a newer version, and nothing else.
fn unread(refusal: u64, newer: u64) -> GarumbottSettings
    ensures { result ≡ settings_numbers (record { refusal = refusal; newer = newer; version = 0; table = 0; profile = 0; width = 0; longest = 0 }) }
{
    GarumbottSettings {
        refusal,
        newer,
        version: 0,
        table: 0,
        profile: 0,
        width: 0,
        longest: 0,
    }
}

impl From<Result<Settings, Unread>> for GarumbottSettings {
    ghost from_gives = { λ read numbers. numbers ≡ settings_numbers (store_values (store_told read)) };

    #[tactic(auto, unfolding(rules::specs::Settings::store_values))]
    fn from(read: Result<Settings, Unread>) -> GarumbottSettings {
        match read {
            Ok(settings) => GarumbottSettings {
                refusal: 0,
                newer: 0,
                version: settings.version as u64,
                table: settings.table as u64,
                profile: settings.profile as u64,
                width: settings.width as u64,
                longest: settings.longest as u64,
            },
            Err(Unread::Refused(refusal)) => unread(refusal.number() as u64, 0),
            Err(Unread::Newer) => unread(Refusal::Version.number() as u64, 1),
        }
    }
}

#[unsafe(no_mangle)]
pub extern "C" fn garumbott_read_settings(newest: u64, data: &[u8]) -> GarumbottSettings
    ensures { result ≡ settings_numbers (store_values (stored_settings newest «data».now)) }
{
    GarumbottSettings::from(read_settings(newest as usize, data))
}

#[unsafe(no_mangle)]
pub extern "C" fn garumbott_write_settings(
    version: u64,
    table: u64,
    profile: u64,
    width: u64,
    longest: u64,
    out: &mut [u8],
) -> GarumbottLength
    ensures value { result ≡ length_of (written_of (written_settings (host_settings version table profile width longest) (length out.old))) }
    ensures out_after { out.new ≡ over (bytes_of (written_settings (host_settings version table profile width longest) (length out.old))) out.old }
{
    let x = Settings {
        version: version as usize,
        table: table as usize,
        profile: profile as usize,
        width: width as usize,
        longest: longest as usize,
    };
    GarumbottLength::from(write_settings(x, out))
}
