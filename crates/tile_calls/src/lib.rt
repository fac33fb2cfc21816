// A frame call that keeps a map beside the frame: what it is asked, what it answers, the length of a map, and what a map says.
#![tactic(auto)]

ghost use Rattle.std.specs.Prelude.{◌≡◌, true};
ghost use Rattle.settings.specs.Settings.{settings_fit};
ghost use Rattle.tile_calls.specs.Call.{length_for, map_fits};

use headers::Session;
use settings::Settings;

// How many bytes a map has, or the number of the refusal.
#[derive(Clone, Copy)]
pub enum MapLength {
    Is(u64),
    Refused(u32, usize),
}

// The length of the map of a session's frames.
pub fn map_length(set: Settings, s: Session) -> MapLength
    ensures { result ≡ length_for set s }
{
    if !settings::settings_fit(set) {
        return MapLength::Refused(bitstream::BAD_SETTINGS, 0);
    }
    if !headers::session_fits(s) {
        return MapLength::Refused(bitstream::NOT_GENUINE, 0);
    }
    MapLength::Is(map_update::length_of(set, s))
}

// Whether a map has its length. Of a session that does not fit nothing is said here: the frame call refuses it.
pub fn map_fits(set: Settings, s: Session, map: &[u8]) -> bool
    requires { settings_fit set ≡ true }
    ensures { result ≡ map_fits set s map.now }
{
    if headers::session_fits(s) {
        let n = map_update::length_of(set, s);
        return map.len() as u64 == n;
    }
    true
}
