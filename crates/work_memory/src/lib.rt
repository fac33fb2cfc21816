// Work memory: the published lengths of its slices, the test of the lengths that are lent, and clearing.
#![tactic(auto)]

ghost use Rattle.std.specs.Prelude.{◌≡◌, true, ◌*◌, length};
ghost use Rattle.headers.specs.Fits.{session_fits};
ghost use Rattle.work_memory.specs.Memory.{memory};
ghost use Rattle.work_memory.specs.Lengths.{lengths_of, lengths_fit, cleared};

use headers::Session;
pub use memory_clearing::{clear_kept, clear_read, clear_scratch};

// The lengths of work memory's slices, in elements, and the bytes of all of them together.
#[derive(Clone, Copy)]
pub struct WorkLengths {
    pub records: u64,
    pub coded: u64,
    pub coefs: u64,
    pub dc: u64,
    pub lasts: u64,
    pub flags: u64,
    pub bits: u64,
    pub supers: u64,
    pub modes: u64,
    pub active: u64,
    pub bytes: u64,
}

// The published lengths for the frames of a session that fits.
pub fn lengths_of(s: Session) -> WorkLengths
    requires { session_fits s ≡ true }
    ensures { result ≡ lengths_of s }
{
    let format = headers::pixel_format(s.fields.pf);
    let sizes = geometry::sizes(format, s.fields.fmbw, s.fields.fmbh);
    let n = sizes.blocks;
    let m = sizes.macro_blocks;
    let k = 2 * sizes.super_blocks;
    let coefs = 64 * n;
    let bytes = 153 * n + k + m;
    WorkLengths {
        records: n,
        coded: n,
        coefs,
        dc: n,
        lasts: n,
        flags: n,
        bits: n,
        supers: k,
        modes: m,
        active: n,
        bytes,
    }
}

// Work memory, whole, becomes 0.
pub fn clear_memory(
    records: &mut [u32],
    coded: &mut [u64],
    coefs: &mut [i16],
    dc: &mut [i16],
    lasts: &mut [u8],
    flags: &mut [u8],
    bits: &mut [u8],
    supers: &mut [u8],
    modes: &mut [u8],
    active: &mut [u64],
)
    requires { length active.old ≡ length bits.old }
    ensures { (l : WorkLengths) → lengths_fit l (memory records.old coded.old coefs.old dc.old lasts.old flags.old bits.old supers.old modes.old active.old) ≡ true
        → memory records.new coded.new coefs.new dc.new lasts.new flags.new bits.new supers.new modes.new active.new ≡ cleared l }
{
    memory_clearing::clear_read(records, coded, coefs, lasts);
    let values = dc.len();
    buffer::clear_shorts(dc, values);
    let blocks = bits.len();
    memory_clearing::clear_scratch(blocks, flags, bits, supers, active);
    let macros = modes.len();
    buffer::clear_bytes(modes, macros);
}
