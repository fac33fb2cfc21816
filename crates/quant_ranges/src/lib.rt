// The range of a qi in a set of quant ranges.
#![tactic(auto)]

ghost use Rattle.std.specs.Prelude.{◌≡◌, ◌+◌, ◌≤◌, length, take, drop};
ghost use Rattle.quantization.specs.Sound.{total};
ghost use Rattle.quant_ranges.specs.Ranges.{range_of};

// A range of a set: which one it is, the qi at which it begins, and its size.
#[derive(Clone, Copy)]
pub struct Range {
    pub number: usize,
    pub start: usize,
    pub size: usize,
}

// The range of qi in a set, whose sizes stand in 64 elements from `first` on.
pub fn range_of(sizes: &[u16], first: usize, qi: usize) -> Range
    requires { (first + 64 ≤ length sizes.now) × (qi ≤ total (take 64 (drop first sizes.now))) × (qi ≤ 63) }
    ensures { result ≡ range_of (take 64 (drop first sizes.now)) qi }
{
    let mut number = 0;
    let mut start = 0;
    let mut size = sizes[first] as usize;
    while start + size < qi {
        start += size;
        number += 1;
        size = sizes[first + number] as usize;
    }
    Range {
        number,
        start,
        size,
    }
}
