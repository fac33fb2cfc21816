// Settings as a list of numbers, as the faces for C lend them, and by what the lists of a shot call with settings are refused.
#![tactic(auto)]

ghost use Rattle.std.specs.Prelude.{◌≡◌, length};
ghost use Rattle.settings_list.specs.List.{settings_of};
ghost use Rattle.settings_list.specs.ShotLists.{tiles_shot_number};

use settings::Settings;

// The settings that a list of 4 numbers says.
pub fn settings_of(list: &[u64]) -> Settings
    requires { length list.now ≡ 4 }
    ensures { result ≡ settings_of list.now }
{
    Settings {
        tile: list[0],
        shot_first: list[1],
        shot_last: list[2],
        plane: list[3],
    }
}

// By what the lists of a shot call with settings are refused before it is made, 0 if by nothing: 1 for a settings' list of another length, 20 for the settings, 1 for a
// session's or names' list of another length.
pub fn lists_refusal(settings: &[u64], session: usize, names: usize) -> u32
    ensures { result ≡ tiles_shot_number settings.now session names }
{
    if settings.len() != 4 {
        return bitstream::WRONG_LENGTH;
    }
    let set = settings_of(settings);
    if settings::settings_fit(set) {
        if (session == 19) & (names == 2) {
            return 0;
        }
        return bitstream::WRONG_LENGTH;
    }
    bitstream::BAD_SETTINGS
}
