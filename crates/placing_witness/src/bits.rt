// Rows of bits that say which entries of a row are strict, 64 to a word.
ghost use Rattle.std.specs.Prelude.{◌≡◌, ℕ, ◌+◌, ◌*◌, ◌<◌, ◌≤◌, ◌^◌, ◌++◌, cond, length, slice_index_or, slice_range, OnOk};
ghost use Rattle.order_laws.specs.Tables.{is_strict};
ghost use Rattle.placing_witness.specs.Bits.{entry_at, word_at, words_of, set_in_both};

use crate::floors::is_strict;
use order_laws::Reach;
use std::alloc::AllocError;

// Whether the entry is strict, as a bit; 0 behind the end of the row.
fn bit(row: &[Reach], at: usize) -> u64
    ensures { result ≡ cond (is_strict (entry_at row.now at)) 1 0 }
{
    if at >= row.len() {
        return 0;
    }
    match row[at] {
        Reach::Lt => 1,
        Reach::Le | Reach::None => 0,
    }
}

fn word(row: &[Reach], from: usize) -> u64
    requires { from ≤ 2 ^ 30 }
    ensures { result ≡ word_at row.now from 64 }
{
    let mut word = 0;
    for k in 0..64 {
        word = 2 * word + bit(row, from + (63 - k));
    }
    word
}

/// Appends the first `count` words of the row.
pub fn pack(row: &[Reach], count: usize, words: &mut Vec<u64>) -> Result<(), AllocError>
    requires { count ≤ 2 ^ 20 }
    ensures { OnOk result (words.new.items ≡ words.old.items ++ words_of row.now count) }
{
    for n in 0..count {
        words.push(word(row, 64 * n))?;
    }
    Ok(())
}

/// How many bits are set in both of two rows of one length.
pub fn count_both(xs: &[u64], ys: &[u64]) -> u32
    requires lengths { length xs.now ≡ length ys.now }
    requires few { length xs.now ≤ 2 ^ 20 }
    ensures value { result ≡ set_in_both xs.now ys.now (length xs.now) }
    ensures bound { result ≤ 64 * length xs.now }
{
    let mut count = 0;
    for n in 0..xs.len() {
        count += (xs[n] & ys[n]).count_ones();
    }
    count
}

/// Sets of each boundary behind x the count of points between x and it, from the bits of the points
/// behind x and of those before each.
pub fn share(counts: &mut [u32], row: &[Reach], after: &[u64], lower: &[u64], words: usize)
    requires row { length counts.old ≤ length row.now }
    requires after { length after.now ≡ words }
    requires lower { length lower.now ≡ length counts.old * words }
    requires words { words ≤ 2 ^ 20 }
    requires few { length counts.old ≤ 2 ^ 22 }
    ensures size { length counts.new ≡ length counts.old }
    ensures shared { (n : ℕ) → n < length counts.old → slice_index_or counts.new n 0 ≡ cond (is_strict (entry_at row.now n)) (set_in_both after.now (slice_range lower.now (n * words) ((n + 1) * words)) words) 0 }
    ensures few { (n : ℕ) → n < length counts.old → slice_index_or counts.new n 0 ≤ 64 * words }
{
    for n in 0..counts.len() {
        counts[n] = if is_strict(row[n]) {
            count_both(after, &lower[n * words..(n + 1) * words])
        } else {
            0
        };
    }
}
