// The quantization matrices of a frame's qi, kept from packet to packet while the list of qi stays: to make them takes some 3,300 instructions for each qi.
#![tactic(auto)]

ghost use Rattle.std.specs.Prelude.{◌≡◌, List, ℕ, ◌≤◌, length};
ghost use Rattle.bitstream.specs.Bits.{longest};
ghost use Rattle.quantization.specs.Sound.{Held};
ghost use Rattle.quantization.specs.declared.LoadedParameters.{LoadedParameters};
ghost use Rattle.matrices.specs.All.{AllQi};
ghost use Rattle.kept_matrices.specs.Kept.{Keeps, Serves, same_list};

use quantization::LoadedParameters;

// The matrices of the first `count` qi, for each type, in it for each plane, in it for each qi. With a count of 0 nothing is kept.
// It is handed on by value: eight copies a packet of 240 instructions each, and no wide function is lent a slice more.
#[derive(Clone, Copy)]
pub struct KeptMatrices {
    pub qis: [u8; 3],
    pub count: u8,
    pub values: [u16; 1152],
}

// Nothing is kept.
pub fn none() -> KeptMatrices
    ensures { (p : List ℕ) (l : LoadedParameters) → Keeps p l result }
{
    KeptMatrices {
        qis: [0; 3],
        count: 0,
        values: [0; 1152],
    }
}

// The matrices of a list of qi, made anew.
fn load(table: &[u8], parameters: LoadedParameters, qis: [u8; 3], count: u8) -> KeptMatrices
    requires { (length table.now ≤ longest) × Held table.now parameters × AllQi qis count × (count ≤ 3) }
    ensures { Serves table.now parameters qis count result }
{
    let number = count as usize;
    let mut values = [0u16; 1152];
    matrices::all_matrices(table, parameters, qis, number, &mut values);
    KeptMatrices { qis, count, values }
}

// Whether two lists of qi are the same. What stands behind the count is 0 in a header, so that it may be looked at.
fn same_list(a: [u8; 3], n: u8, b: [u8; 3], m: u8) -> bool
    ensures { result ≡ same_list a n b m }
{
    (n == m) & (a[0] == b[0]) & (a[1] == b[1]) & (a[2] == b[2])
}

// The matrices of a list of qi: those that are kept, if its list is the same, or if none is asked for (a repeat), and else new ones.
pub fn kept_for(
    table: &[u8],
    parameters: LoadedParameters,
    qis: [u8; 3],
    count: u8,
    kept: KeptMatrices,
) -> KeptMatrices
    requires { (length table.now ≤ longest) × Held table.now parameters × AllQi qis count × (count ≤ 3) × Keeps table.now parameters kept }
    ensures { Serves table.now parameters qis count result }
{
    if count == 0 {
        return kept;
    }
    let list = kept.qis;
    if same_list(list, kept.count, qis, count) {
        return kept;
    }
    load(table, parameters, qis, count)
}
