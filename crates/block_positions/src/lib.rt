// The blocks of a frame by their positions: which are unfinished, and which stand at a position.
#![tactic(auto)]

ghost use Rattle.std.specs.Prelude.{◌≡◌, ◌<◌, ◌≤◌, [], ◌∷◌, length, take};
ghost use Rattle.block_positions.specs.Positions.{unfinished, run_of};
ghost use Rattle.block_positions.specs.Answer.{one_if_due, due_of, Below};

// 1 for an unfinished block, by its position.
pub fn one_if_unfinished(p: u8) -> usize
    ensures { result ≡ unfinished (p ∷ []) }
{
    if p < 64 {
        return 1;
    }
    0
}

// How many blocks are unfinished.
fn count_unfinished(positions: &[u8]) -> usize
    ensures { result ≡ unfinished positions.now }
{
    let mut n = 0;
    let mut b = 0;
    while b < positions.len() {
        n += one_if_unfinished(positions[b]);
        b += 1;
    }
    n
}

// How many blocks an end-of-block run of n ends. A run of 0 comes at most once in a frame, so the blocks are counted at most once.
pub fn run_of(positions: &[u8], n: u16) -> usize
    ensures { result ≡ run_of positions.now n }
{
    if n == 0 {
        return count_unfinished(positions);
    }
    n as usize
}

// 1 for a block that stands at the position k, by its own.
fn one_if_due(p: u8, k: usize) -> usize
    ensures { result ≡ one_if_due k p }
{
    if p as usize == k {
        return 1;
    }
    0
}

// Writes the blocks of a list that stand at the position k to the front of `due`: how many they are.
// No branch depends on where a block stands. A third of the blocks are elsewhere, and a branch for each is mispredicted: 7 % of the time of the recording cif.
pub fn gather(positions: &[u8], blocks: &[u64], k: usize, due: &mut [u64]) -> usize
    requires { (length blocks.now ≤ length due.old) × Below (length positions.now) blocks.now }
    ensures { (take result due.new ≡ due_of k positions.now blocks.now) × (result ≤ length blocks.now) }
{
    let mut n = 0;
    let mut j = 0;
    while j < blocks.len() {
        let b = blocks[j];
        let p = positions[b as usize];
        due[n] = b;
        n += one_if_due(p, k);
        j += 1;
    }
    n
}
