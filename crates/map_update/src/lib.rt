// The map of changed tiles after a packet, by the session before it: all 1 without references, as it was where the packet is refused.
#![tactic(auto)]

ghost use Rattle.std.specs.Prelude.{◌≡◌, true};
ghost use Rattle.headers.specs.Fits.{session_fits};
ghost use Rattle.settings.specs.Settings.{settings_fit};
ghost use Rattle.map_update.specs.Map.{map_length_of, accepted_map, map_after, Lent, IfAccepted};

use headers::Session;
use reading::Verdict;
use settings::Settings;

// How many bytes a map has.
pub fn length_of(set: Settings, s: Session) -> u64
    requires { (settings_fit set ≡ true) × (session_fits s ≡ true) }
    ensures { result ≡ map_length_of set s }
{
    let format = headers::pixel_format(s.fields.pf);
    tile_map::map_length(format, s.fields.fmbw, s.fields.fmbh, set.plane, set.tile)
}

// The map after an accepted packet: a frame without references before it is new everywhere.
pub fn write_accepted(set: Settings, s: Session, previous: &[u8], new: &[u8], map: &mut [u8])
    requires { (settings_fit set ≡ true) × Lent set s previous.now new.now map.old }
    ensures { map.new ≡ accepted_map set s previous.now new.now }
{
    if s.references {
        let format = headers::pixel_format(s.fields.pf);
        tile_map::write_map(
            format,
            s.fields.fmbw,
            s.fields.fmbh,
            set.plane,
            set.tile,
            previous,
            new,
            map,
        );
        return;
    }
    let n = map.len();
    buffer::fill_bytes(map, 0, n, 1);
}

// The map after a packet: a refused one leaves it.
pub fn update_map(
    set: Settings,
    s: Session,
    verdict: Verdict,
    previous: &[u8],
    new: &[u8],
    map: &mut [u8],
)
    requires { (settings_fit set ≡ true) × IfAccepted verdict (Lent set s previous.now new.now map.old) }
    ensures { map.new ≡ map_after set s verdict previous.now new.now map.old }
{
    let Verdict::Accepted(_) = verdict else {
        return;
    };
    write_accepted(set, s, previous, new, map);
}
