// The two ways of making a frame: definitions in specs/, theorems in proofs/. The crates above have the code, but for the row of 8 samples that two of them copy.
#![tactic(auto)]

ghost use Rattle.std.specs.Prelude.{◌≡◌, ◌+◌, ◌≤◌, length, get_or};
ghost use Rattle.ways.specs.Corner.{row_at};

// 8 samples from `at` on: those of t from k on. `copy_from_slice` goes through memory where t is a local array, and a moved block takes 7 % longer.
#[tactic(auto, using(crate::proofs::Steps::up_to_more), unfolding(crate::specs::Loops::up_to, crate::specs::Corner::row_at))]
pub fn copy_row(new: &mut [u8], at: usize, t: &[u8], k: usize)
    requires { (at + 8 ≤ length new.old) × (k + 8 ≤ length t.now) }
    ensures { new.new ≡ row_at (λ c. get_or t.now (k + c) 0) at new.old }
{
    for c in 0..8 {
        new[at + c] = t[k + c];
    }
}
