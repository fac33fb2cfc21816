// The quantization matrix of a type, a plane and a qi, from parameters that were read.
#![tactic(auto)]

ghost use Rattle.std.specs.Prelude.{◌≡◌, ◌+◌, ◌*◌, ◌≤◌, ◌<◌, length};
ghost use Rattle.bitstream.specs.Bits.{bits, number, longest};
ghost use Rattle.bitstream.specs.Lists.{tabulated};
ghost use Rattle.quantization.specs.Sound.{Held};
ghost use Rattle.quant_ranges.specs.Ranges.{InRange};
ghost use Rattle.matrix_values.specs.Values.{scaled};
ghost use Rattle.matrix_values.specs.Weights.{Light, weighed};
ghost use Rattle.matrices.specs.Matrix.{value_at, MatrixIs};
ghost use Rattle.matrices.specs.All.{AllQi, AllMatricesAre};

use matrix_values::Weights;
use quant_ranges::Range;
use quantization::LoadedParameters;

// The value at the coefficient c, between the base matrices at two places.
fn value_at(
    packet: &[u8],
    first: usize,
    second: usize,
    weights: Weights,
    low: u16,
    scale: u16,
    c: usize,
) -> u16
    requires { (length packet.now ≤ longest) × (first + 512 ≤ bits packet.now) × (second + 512 ≤ bits packet.now) × Light weights × (low ≤ 32) × (c < 64) }
    ensures { result ≡ scaled low scale (weighed weights (number packet.now (first + c * 8) 8) (number packet.now (second + c * 8) 8)) }
{
    let left = matrix_values::byte_at(packet, first / 8 + c, first % 8);
    let right = matrix_values::byte_at(packet, second / 8 + c, second % 8);
    let value = matrix_values::interpolate(weights, left, right);
    matrix_values::scale_value(low, scale, value)
}

// The 64 values between the base matrices at two places, by the scales of DC and AC. The loop makes all 64 by that of AC, since 63 would leave 7 over at the end of its vector instructions.
fn fill_matrix(
    packet: &[u8],
    first: usize,
    second: usize,
    range: Range,
    qti: usize,
    qi: usize,
    dc: u16,
    ac: u16,
    out: &mut [u16],
)
    requires { (length packet.now ≤ longest) × (first + 512 ≤ bits packet.now) × (second + 512 ≤ bits packet.now) × InRange range qi × (length out.old ≡ 64) }
    ensures { out.new ≡ tabulated (λ c. value_at qti dc ac range qi c (number packet.now (first + c * 8) 8) (number packet.now (second + c * 8) 8)) 0 64 }
{
    let weights = matrix_values::weigh(range, qi);
    let low = matrix_values::least(qti, 1);
    let mut c = 0;
    while c < 64 {
        out[c] = value_at(packet, first, second, weights, low, ac, c);
        c += 1;
    }
    let low_dc = matrix_values::least(qti, 0);
    out[0] = value_at(packet, first, second, weights, low_dc, dc, 0);
}

// The quantization matrix of a type (0 intra, 1 inter), a plane and a qi, in natural order.
pub fn matrix(
    packet: &[u8],
    loaded: LoadedParameters,
    qti: usize,
    plane: usize,
    qi: usize,
    out: &mut [u16],
)
    requires { (length packet.now ≤ longest) × Held packet.now loaded × (qti < 2) × (plane < 3) × (qi < 64) × (length out.old ≡ 64) }
    ensures { MatrixIs packet.now loaded qti plane qi out.new }
{
    let place = loaded.place;
    let start = (3 * qti + plane) * 64;
    let range = quant_ranges::range_of(&loaded.sizes, start, qi);
    let number = range.number;
    let one = loaded.indices[start + number] as usize;
    let two = loaded.indices[start + number + 1] as usize;
    let first = place + one * 512;
    let second = place + two * 512;
    let dc = loaded.dc_scale[qi];
    let ac = loaded.ac_scale[qi];
    fill_matrix(packet, first, second, range, qti, qi, dc, ac, out)
}

// The matrices of a list of qi, for each type, in it for each plane, in it for each qi. The loop does not call `matrix`, which would copy the parameters, 1,800 bytes, at each turn.
pub fn all_matrices(
    packet: &[u8],
    loaded: LoadedParameters,
    qis: [u8; 3],
    count: usize,
    out: &mut [u16],
)
    requires { (length packet.now ≤ longest) × Held packet.now loaded × AllQi qis count × (count ≤ 3) × (length out.old ≡ 1152) }
    ensures { AllMatricesAre packet.now loaded qis count out.new }
{
    let place = loaded.place;
    let mut j: usize = 0;
    while j < 6 * count {
        let index = j / 6;
        let set = j % 6;
        let qti = set / 3;
        let plane = set % 3;
        let qi = qis[index] as usize;
        let start = (3 * qti + plane) * 64;
        let range = quant_ranges::range_of(&loaded.sizes, start, qi);
        let number = range.number;
        let one = loaded.indices[start + number] as usize;
        let two = loaded.indices[start + number + 1] as usize;
        let first = place + one * 512;
        let second = place + two * 512;
        let dc = loaded.dc_scale[qi];
        let ac = loaded.ac_scale[qi];
        let at = (set * 3 + index) * 64;
        let end = at + 64;
        fill_matrix(
            packet,
            first,
            second,
            range,
            qti,
            qi,
            dc,
            ac,
            &mut out[at..end],
        );
        j += 1;
    }
}
