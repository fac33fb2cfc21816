// Clearing the lists of a frame's blocks once the frame is made.
#![tactic(auto)]

ghost use Rattle.std.specs.Prelude.{◌≡◌, ◌-◌, ◌*◌, ◌≤◌, pos, length, drop, replicate};

// What held the first `count` coded blocks becomes 0 everywhere. Behind their elements there is nothing to clear.
pub fn clear_blocks(
    records: &mut [u32],
    coded: &mut [u64],
    count: usize,
    coefs: &mut [i16],
    dc: &mut [i16],
    lasts: &mut [u8],
)
    requires { (count ≤ length coded.old) × (drop count coded.old ≡ replicate (length coded.old - count) 0) × (count * 64 ≤ length coefs.old) × (drop (count * 64) coefs.old ≡ replicate (length coefs.old - count * 64) (pos 0)) × (count ≤ length lasts.old) × (drop count lasts.old ≡ replicate (length lasts.old - count) 0) }
    ensures { (records.new ≡ replicate (length records.old) 0) × (coded.new ≡ replicate (length coded.old) 0) × (coefs.new ≡ replicate (length coefs.old) (pos 0))
        × (dc.new ≡ replicate (length dc.old) (pos 0)) × (lasts.new ≡ replicate (length lasts.old) 0) }
{
    let blocks = records.len();
    let values = dc.len();
    buffer::clear_words(records, blocks);
    buffer::clear_longs(coded, count);
    buffer::clear_shorts(coefs, count * 64);
    buffer::clear_shorts(dc, values);
    buffer::clear_bytes(lasts, count);
}
