// Which of the frame's qi each coded block has.
#![tactic(auto)]

ghost use Rattle.std.specs.Prelude.{◌≡◌, map, ℕ, ◌+◌, ◌≤◌, ◌<◌, eqb, length, get_or, set};
ghost use Rattle.bitstream.specs.Bits.{longest};
ghost use Rattle.bitstream.specs.Reading.{choose};
ghost use Rattle.bitstream.specs.Answer.{StoredAs, as_end};
ghost use Rattle.bitstream.specs.Lists.{Once, AllBelow};
ghost use Rattle.block_record.specs.Record.{with_qi_index};
ghost use Rattle.block_record.specs.Packed.{packed, unpacked};
ghost use Rattle.block_record.specs.Memory.{AllPacked, records_of};
ghost use Rattle.block_qi.specs.BlockQi.{at_step, raised, one_step, block_qi};
ghost use Rattle.block_qi.specs.Answer.{KeptRecords};

use bitstream::End;
use runs::RunCode;

// Whether a packed record has the index q, as a number.
fn is_at(n: u32, q: u32) -> usize
    ensures { (result ≡ choose (eqb (unpacked n).qi_index q) 1 0) × (result ≤ 1) }
{
    if block_record::qi_index(n) == q {
        return 1;
    }
    0
}

// How many of the coded blocks have the index q.
fn count_at(q: u32, coded: &[u64], records: &[u32]) -> usize
    requires { AllBelow (length records.now) coded.now }
    ensures { (result ≡ at_step q coded.now (records_of records.now)) × (result ≤ length coded.now) }
{
    let mut n: usize = 0;
    let mut i = 0;
    while i < coded.len() {
        let b = coded[i] as usize;
        n += is_at(records[b], q);
        i += 1;
    }
    n
}

// Block b: where it has the index q, bit j of the string is added to it. The answer is how many bits are taken then.
fn raise_block(records: &mut [u32], b: usize, q: u32, bits: &[u8], j: usize) -> usize
    requires { (b < length records.old) × AllPacked records.old × (q ≤ 1) × AllBelow 2 bits.now × ((unpacked (get_or records.old b 0)).qi_index ≡ q → j < length bits.now) }
    ensures value { result ≡ choose (eqb (unpacked (get_or records.old b 0)).qi_index q) (j + 1) j }
    ensures records_after { records.new ≡ choose (eqb (unpacked (get_or records.old b 0)).qi_index q) (set records.old b (packed (with_qi_index (q + get_or bits.now j 0) (unpacked (get_or records.old b 0))))) records.old }
{
    let n = records[b];
    if block_record::qi_index(n) != q {
        return j;
    }
    let bit = bits[j];
    records[b] = block_record::with_qi_index(n, q + bit as u32);
    j + 1
}

// Spreads the bits over the coded blocks that have the index q.
fn raise_blocks(q: u32, coded: &[u64], bits: &[u8], records: &mut [u32])
    requires { (q ≤ 1) × Once coded.now × AllBelow (length records.old) coded.now × AllBelow 2 bits.now × AllPacked records.old × (length bits.now ≡ at_step q coded.now (records_of records.old)) }
    ensures { (records_of records.new ≡ raised q coded.now bits.now (records_of records.old)) × AllPacked records.new }
{
    let mut j: usize = 0;
    let mut i = 0;
    while i < coded.len() {
        let b = coded[i] as usize;
        j = raise_block(records, b, q, bits, j);
        i += 1;
    }
}

// One step: its string, into the front of `bits`, which is scratch, and then over the blocks.
fn read_step(
    packet: &[u8],
    at: usize,
    q: u32,
    coded: &[u64],
    bits: &mut [u8],
    records: &mut [u32],
) -> End
    requires { (length packet.now ≤ longest) × (q ≤ 1) × Once coded.now × AllBelow (length records.old) coded.now × (length coded.now ≤ length bits.old) × AllPacked records.old }
    ensures value { result ≡ as_end (one_step q coded.now (records_of records.old) packet.now at) }
    ensures kept_records { KeptRecords records.new (one_step q coded.now (records_of records.old) packet.now at) }
{
    let n = count_at(q, coded, records);
    let string = runs::read_string(packet, at, RunCode::Long, &mut bits[..n]);
    match string {
        End::Refused(k, e) => End::Refused(k, e),
        End::At(place) => {
            raise_blocks(q, coded, &bits[..n], records);
            End::At(place)
        }
    }
}

// The strings of a frame with `qis` qi. `bits` is scratch; what it holds afterwards is open.
pub fn read_block_qi(
    packet: &[u8],
    at: usize,
    qis: u32,
    coded: &[u64],
    bits: &mut [u8],
    records: &mut [u32],
) -> End
    requires { (length packet.now ≤ longest) × (qis ≤ 3) × Once coded.now × AllBelow (length records.old) coded.now × (length coded.now ≤ length bits.old) × AllPacked records.old }
    ensures value { result ≡ as_end (block_qi qis coded.now (records_of records.old) packet.now at) }
    ensures stored_as { StoredAs (map packed) records.new (block_qi qis coded.now (records_of records.old) packet.now at) }
{
    let mut q: u32 = 0;
    let mut place = at;
    while q + 1 < qis {
        let done = read_step(packet, place, q, coded, bits, records);
        match done {
            End::Refused(k, e) => {
                return End::Refused(k, e);
            }
            End::At(next) => {
                place = next;
                q += 1;
            }
        }
    }
    End::At(place)
}
