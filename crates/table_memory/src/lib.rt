// A memory that keeps an accepted packet: the bits that were read, then zeros.
#![tactic(auto)]

ghost use Rattle.std.specs.Prelude.{◌≡◌, ◌++◌, ℕ, ◌/◌, ◌≤◌, ◌^◌, length, take, drop, replicate};
ghost use Rattle.bitstream.specs.Bits.{bits, longest};
ghost use Rattle.table_memory.specs.Kept.{kept_byte, kept, clear_from};

// Sets every byte to 0.
pub fn clear(table: &mut [u8])
    ensures { table.new ≡ replicate (length table.old) 0 }
{
    let mut k = 0;
    while k < table.len() {
        table[k] = 0;
        k += 1;
    }
}

// Copies the packet's first `count` bytes to the front of the table.
fn copy_front(packet: &[u8], count: usize, table: &mut [u8])
    requires { (count ≤ length packet.now) × (count ≤ length table.old) }
    ensures { table.new ≡ take count packet.now ++ drop count table.old }
{
    let mut k = 0;
    while k < count {
        table[k] = packet[k];
        k += 1;
    }
}

// The byte in which the place `end` stands: its bits before the place, then zeros.
fn part_byte(packet: &[u8], end: usize) -> u8
    requires { end ≤ bits packet.now }
    ensures { result ≡ kept_byte packet.now end (end / 8) }
{
    let used = end % 8;
    if used == 0 {
        return 0;
    }
    let byte = packet[end / 8];
    byte - byte % (1 << (8 - used))
}

// The packet's first `end` bits, then zeros: whole bytes are copied, of one byte a part is kept.
pub fn keep(packet: &[u8], end: usize, table: &mut [u8])
    requires { (end ≤ bits packet.now) × (length table.old ≤ longest) }
    ensures { table.new ≡ kept packet.now end (length table.old) }
{
    let size = table.len();
    let whole = end / 8;
    if size <= whole {
        copy_front(packet, size, table);
        return;
    }
    clear(table);
    copy_front(packet, whole, table);
    table[whole] = part_byte(packet, end);
}

// Whether every bit from the place `end` on is 0: the rest of its byte, and then all further bytes in one sweep.
pub fn rest_is_zero(table: &[u8], end: usize) -> bool
    requires { length table.now ≤ longest }
    ensures { result ≡ clear_from table.now end }
{
    if table.len() * 8 <= end {
        return true;
    }
    let first = end / 8;
    let part = 8 - end % 8;
    let byte = table[first] as u32;
    if byte % (1 << part) != 0 {
        return false;
    }
    let mut rest: u8 = 0;
    let mut k = first + 1;
    while k < table.len() {
        rest = rest | table[k];
        k += 1;
    }
    rest == 0
}
