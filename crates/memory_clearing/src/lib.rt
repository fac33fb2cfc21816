// Clearing slices of work memory: those that a reader leaves, and its scratch.
#![tactic(auto)]

ghost use Rattle.std.specs.Prelude.{◌≡◌, ◌-◌, ◌*◌, ◌≤◌, pos, length, drop, replicate};

// The slices that hold what was read become 0.
pub fn clear_read(records: &mut [u32], coded: &mut [u64], coefs: &mut [i16], lasts: &mut [u8])
    ensures { (records.new ≡ replicate (length records.old) 0) × (coded.new ≡ replicate (length coded.old) 0) × (coefs.new ≡ replicate (length coefs.old) (pos 0)) × (lasts.new ≡ replicate (length lasts.old) 0) }
{
    let blocks = records.len();
    buffer::clear_words(records, blocks);
    let numbers = coded.len();
    buffer::clear_longs(coded, numbers);
    let values = coefs.len();
    buffer::clear_shorts(coefs, values);
    let visits = lasts.len();
    buffer::clear_bytes(lasts, visits);
}

// The other slices that a reader uses become 0. Behind the first `count` of `bits` and of `active` there is nothing to clear.
pub fn clear_scratch(
    count: usize,
    flags: &mut [u8],
    bits: &mut [u8],
    supers: &mut [u8],
    active: &mut [u64],
)
    requires { (count ≤ length bits.old) × (drop count bits.old ≡ replicate (length bits.old - count) 0) × (count ≤ length active.old) × (drop count active.old ≡ replicate (length active.old - count) 0) }
    ensures { (flags.new ≡ replicate (length flags.old) 0) × (bits.new ≡ replicate (length bits.old) 0) × (supers.new ≡ replicate (length supers.old) 0) × (active.new ≡ replicate (length active.old) 0) }
{
    let blocks = flags.len();
    buffer::clear_bytes(flags, blocks);
    buffer::clear_bytes(bits, count);
    let strings = supers.len();
    buffer::clear_bytes(supers, strings);
    buffer::clear_longs(active, count);
}

// What a reader keeps of a packet with `count` coded blocks becomes 0. Behind their elements there is nothing to clear.
pub fn clear_kept(
    count: usize,
    records: &mut [u32],
    coded: &mut [u64],
    coefs: &mut [i16],
    lasts: &mut [u8],
    modes: &mut [u8],
)
    requires { (count ≤ length coded.old) × (drop count coded.old ≡ replicate (length coded.old - count) 0) × (64 * count ≤ length coefs.old) × (drop (64 * count) coefs.old ≡ replicate (length coefs.old - 64 * count) (pos 0)) × (count ≤ length lasts.old) × (drop count lasts.old ≡ replicate (length lasts.old - count) 0) }
    ensures { (records.new ≡ replicate (length records.old) 0) × (coded.new ≡ replicate (length coded.old) 0) × (coefs.new ≡ replicate (length coefs.old) (pos 0)) × (lasts.new ≡ replicate (length lasts.old) 0) × (modes.new ≡ replicate (length modes.old) 0) }
{
    let blocks = records.len();
    buffer::clear_words(records, blocks);
    buffer::clear_longs(coded, count);
    buffer::clear_shorts(coefs, 64 * count);
    buffer::clear_bytes(lasts, count);
    let macros = modes.len();
    buffer::clear_bytes(modes, macros);
}
