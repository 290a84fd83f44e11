// What the rows of a closure say of numbered points: floors that are raised, and counts.
ghost use Rattle.std.specs.Prelude.{◌≡◌, ℕ, ◌+◌, ◌*◌, ◌/◌, ◌<◌, ◌≤◌, ◌^◌, ◌&&◌, ◌==◌, cond, length, slice_index_or};
ghost use Rattle.order_closure.specs.Rows.{bit_of};

// Whether the bit is set.
fn is_set(row: &[u64], k: usize) -> bool
    requires { k / 64 < length row.now }
    ensures { result ≡ bit_of row.now 0 k }
{
    (row[k / 64] >> (k % 64)) & 1 == 1
}

/// Sets the floor of each point whose bit is set.
pub fn raise(floors: &mut [u32], row: &[u64], floor: u32)
    requires { length floors.old ≤ 64 * length row.now }
    ensures size { length floors.new ≡ length floors.old }
    ensures raised { (n : ℕ) → n < length floors.old → slice_index_or floors.new n 0 ≡ cond (bit_of row.now 0 n) floor (slice_index_or floors.old n 0) }
{
    for n in 0..floors.len() {
        if is_set(row, n) {
            floors[n] = floor;
        }
    }
}

/// Counts one more for each point whose bit is set and that has the floor.
pub fn tally_level(counts: &mut [u32], row: &[u64], floors: &[u32], floor: u32)
    requires row { length counts.old ≤ 64 * length row.now }
    requires floors { length counts.old ≤ length floors.now }
    requires few { (n : ℕ) → n < length counts.old → slice_index_or counts.old n 0 < 2 ^ 22 }
    ensures size { length counts.new ≡ length counts.old }
    ensures counts { (n : ℕ) → n < length counts.old → slice_index_or counts.new n 0 ≡ slice_index_or counts.old n 0 + cond (bit_of row.now 0 n && (floor == slice_index_or floors.now n 0)) 1 0 }
{
    for n in 0..counts.len() {
        if is_set(row, n) && floor == floors[n] {
            counts[n] += 1;
        }
    }
}

// Counts one more for each point whose bit is set.
fn tally(counts: &mut [u32], row: &[u64])
    requires row { length counts.old ≤ 64 * length row.now }
    requires few { (n : ℕ) → n < length counts.old → slice_index_or counts.old n 0 < 2 ^ 22 }
    ensures size { length counts.new ≡ length counts.old }
    ensures counts { (n : ℕ) → n < length counts.old → slice_index_or counts.new n 0 ≡ slice_index_or counts.old n 0 + cond (bit_of row.now 0 n) 1 0 }
{
    for n in 0..counts.len() {
        if is_set(row, n) {
            counts[n] += 1;
        }
    }
}

/// Does so where that is asked.
pub fn tally_where(counts: &mut [u32], row: &[u64], asked: bool)
    requires row { length counts.old ≤ 64 * length row.now }
    requires few { (n : ℕ) → n < length counts.old → slice_index_or counts.old n 0 < 2 ^ 22 }
    ensures size { length counts.new ≡ length counts.old }
    ensures counts { (n : ℕ) → n < length counts.old → slice_index_or counts.new n 0 ≡ slice_index_or counts.old n 0 + cond (asked && bit_of row.now 0 n) 1 0 }
{
    if asked {
        tally(counts, row);
    }
}
