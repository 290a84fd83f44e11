// What is before what, as rows of bits in machine words.
ghost use Rattle.std.specs.Prelude.{◌≡◌, ◌<◌, ◌≤◌, ◌+◌, ◌*◌, ◌/◌, ◌^◌, ℕ, true, false, length, slice_index_or};
ghost use Rattle.order_closure.specs.Rows.{row_width, bit_of, with_bit};
ghost use Rattle.harris_matrix.specs.Rows.{mark_at, AreRows};

/// So many rows of so many bits.
#[derive(Drop)]
pub struct Rows {
    pub count: u32,
    pub words: Vec<u64>,
}

/// How many words a row of so many bits has.
pub fn row_width(count: u32) -> usize
    requires { count ≤ 2 ^ 16 }
    ensures { result ≡ row_width count }
{
    (count as usize + 63) / 64
}

/// Whether a bit of the row that begins at a word is set.
pub fn has_bit(words: &[u64], row: usize, k: usize) -> bool
    requires { row + k / 64 < length words.now }
    ensures { result ≡ bit_of words.now row k }
{
    (words[row + k / 64] >> (k % 64)) & 1 == 1
}

/// Adds a bit to the row that begins at a word, without a branch.
pub fn add_bit(words: &mut [u64], row: usize, k: usize, bit: bool)
    requires { row + k / 64 < length words.old }
    ensures set { bit ≡ true → words.new ≡ with_bit words.old row k }
    ensures kept { bit ≡ false → words.new ≡ words.old }
{
    words[row + k / 64] |= (bit as u64) << (k % 64);
}

fn row_at(words: &[u64], row: usize, width: usize) -> &[u64]
    requires { row + width ≤ length words.now }
    ensures size { length result.now ≡ width }
    ensures words { (k : ℕ) → k < width → slice_index_or result.now k 0 ≡ slice_index_or words.now (row + k) 0 }
{
    &words[row..row + width]
}

/// Whether cell i is before cell j.
pub fn is_before(rows: &Rows, i: u32, j: u32) -> bool
    requires rows { AreRows rows.now.count rows.now.words.items }
    requires first { i < rows.now.count }
    requires second { j < rows.now.count }
    ensures { result ≡ mark_at rows.now.count rows.now.words.items i j }
{
    let row = i as usize * row_width(rows.count);
    has_bit(rows.words.as_slice(), row, j as usize)
}

/// The words of the row of cell i.
pub fn row_of(rows: &Rows, i: u32) -> &[u64]
    requires rows { AreRows rows.now.count rows.now.words.items }
    requires in_range { i < rows.now.count }
    ensures size { length result.now ≡ row_width rows.now.count }
    ensures each { (j : ℕ) → j < rows.now.count → bit_of result.now 0 j ≡ mark_at rows.now.count rows.now.words.items i j }
{
    let width = row_width(rows.count);
    row_at(rows.words.as_slice(), i as usize * width, width)
}
