// The means of neighbouring DC values, and which of them replaces a mean that is far.
#![tactic(auto)]

ghost use Rattle.std.specs.Prelude.{◌≡◌, ◌≤◌, nat_abs};
ghost use Rattle.dc_means.specs.Means.{far, mean_ldl_d, mean_ldr, mean_dl_ddr, mean_of_two, replaced};

// More than 128 apart.
#[tactic(auto, unfolding(crate::specs::Means::far))]
pub fn far(a: i32, b: i16) -> bool
    requires { nat_abs a ≤ 86016 }
    ensures { result ≡ far a b }
{
    a.abs_diff(b as i32) > 128
}

pub fn mean_l_dl_d(l: i16, dl: i16, d: i16) -> i32
    ensures { (result ≡ mean_ldl_d l dl d) × (nat_abs result ≤ 86016) }
{
    (l as i32 * 29 - dl as i32 * 26 + d as i32 * 29) / 32
}

pub fn mean_l_dr(l: i16, dr: i16) -> i32
    ensures { (result ≡ mean_ldr l dr) × (nat_abs result ≤ 86016) }
{
    (l as i32 * 75 + dr as i32 * 53) / 128
}

pub fn mean_dl_d_dr(dl: i16, d: i16, dr: i16) -> i32
    ensures { (result ≡ mean_dl_ddr dl d dr) × (nat_abs result ≤ 86016) }
{
    (dl as i32 * 3 + d as i32 * 10 + dr as i32 * 3) / 16
}

pub fn mean_of_two(x: i16, y: i16) -> i32
    ensures { (result ≡ mean_of_two x y) × (nat_abs result ≤ 86016) }
{
    (x as i32 + y as i32) / 2
}

// The mean of L, DL and D; where it is far from one of them, the first such of D, L, DL.
#[tactic(auto, unfolding(crate::specs::Means::replaced, crate::specs::Means::kept))]
pub fn replaced(l: i16, dl: i16, d: i16) -> i32
    ensures { (result ≡ replaced l dl d) × (nat_abs result ≤ 86016) }
{
    let p = mean_l_dl_d(l, dl, d);
    if far(p, d) {
        return d as i32;
    }
    if far(p, l) {
        return l as i32;
    }
    if far(p, dl) {
        return dl as i32;
    }
    p
}
