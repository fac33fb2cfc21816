// The edges of a block: which are wanted, and the loop filter at those.
#![tactic(auto)]

ghost use Rattle.std.specs.Prelude.{◌≡◌, true, false, not, cond, ◌+◌, ◌*◌, ◌≤◌, ◌<◌, length};
ghost use Rattle.ways.specs.Ways.{edges_at};
ghost use Rattle.edge_filter.specs.Filter.{filtered};
ghost use Rattle.block_edges.specs.Flags.{coded_at};

// The edges of a block that are wanted.
#[tactic(auto, unfolding(ways::specs::Ways::edges_at))]
pub fn filter_block(
    s: &mut [u8],
    corner: usize,
    row: usize,
    left: bool,
    lower: bool,
    right: bool,
    upper: bool,
    limit: u32,
)
    requires { (left ≡ true → 2 ≤ corner) × (lower ≡ true → 2 * row ≤ corner) × (corner + 7 * row + 7 < length s.old)
        × (right ≡ true → corner + 7 * row + 9 < length s.old) × (upper ≡ true → corner + 7 + row * 9 < length s.old) × (limit ≤ 127) × (8 ≤ row) }
    ensures { s.new ≡ edges_at (filtered limit) corner row left lower right upper s.old }
{
    if left {
        edge_filter::filter_edge(s, corner - 2, row, 1, limit);
    }
    if lower {
        edge_filter::filter_edge(s, corner - 2 * row, 1, row, limit);
    }
    if right {
        edge_filter::filter_edge(s, corner + 6, row, 1, limit);
    }
    if upper {
        edge_filter::filter_edge(s, corner + 6 * row, 1, row, limit);
    }
}

// Is block n coded?
#[tactic(auto, unfolding(crate::specs::Flags::coded_at))]
pub fn is_coded(records: &[u32], n: usize) -> bool
    requires { n < length records.now }
    ensures { result ≡ coded_at records.now n }
{
    block_record::is_coded(records[n])
}

// Is a neighbour there, and uncoded? Block n is the neighbour.
pub fn is_open(records: &[u32], there: bool, n: usize) -> bool
    requires { there ≡ true → n < length records.now }
    ensures { result ≡ cond there (not (coded_at records.now n)) false }
{
    there && !is_coded(records, n)
}
