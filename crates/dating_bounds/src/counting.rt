// Counts of points from rows of bits, 64 to a word.
ghost use Rattle.std.specs.Prelude.{◌≡◌, ℕ, ◌*◌, ◌/◌, ◌<◌, ◌≤◌, ◌^◌, bit_and, bit_or, length};
ghost use Rattle.order_closure.specs.Rows.{bit_of};
ghost use Rattle.placing_witness.specs.Bits.{count_to};
ghost use Rattle.dating_bounds.specs.Pushed.{is_set_passed};

/// Rows of bits over the points, from which those that stand before another are read: at or after a date, at or before the low
/// point of an order, at or after its high point, and before the other point.
#[derive(Drop)]
pub struct Rows<'a> {
    pub level: &'a [u64],
    pub below: &'a [u64],
    pub ahead: &'a [u64],
    pub before: &'a [u64],
}

// Whether the bit is set.
fn is_set(row: &[u64], k: usize) -> bool
    requires { k / 64 < length row.now }
    ensures { result ≡ bit_of row.now 0 k }
{
    (row[k / 64] >> (k % 64)) & 1 == 1
}

fn word(level: u64, below: u64, ahead: u64, before: u64) -> u64
    ensures { result ≡ bit_or (bit_and level below) (bit_and before (bit_or level ahead)) }
{
    (level & below) | (before & (level | ahead))
}

// The count in the first words.
#[tactic(auto, using(crate::proofs::Words::word_next, crate::proofs::Words::count_most))]
fn count_words(rows: &Rows, words: usize) -> u32
    requires level { words ≤ length rows.now.level.now }
    requires below { words ≤ length rows.now.below.now }
    requires ahead { words ≤ length rows.now.ahead.now }
    requires before { words ≤ length rows.now.before.now }
    requires few { words ≤ 2 ^ 20 }
    ensures value { result ≡ count_to (is_set_passed rows.now.level.now rows.now.below.now rows.now.ahead.now rows.now.before.now) (64 * words) }
    ensures bound { result ≤ 64 * words }
{
    let mut count = 0;
    for n in 0..words {
        let passed = word(rows.level[n], rows.below[n], rows.ahead[n], rows.before[n]);
        count += passed.count_ones();
    }
    count
}

fn is_passed(rows: &Rows, k: usize) -> bool
    requires level { k / 64 < length rows.now.level.now }
    requires below { k / 64 < length rows.now.below.now }
    requires ahead { k / 64 < length rows.now.ahead.now }
    requires before { k / 64 < length rows.now.before.now }
    ensures { result ≡ is_set_passed rows.now.level.now rows.now.below.now rows.now.ahead.now rows.now.before.now k }
{
    (is_set(rows.level, k) && is_set(rows.below, k))
        || (is_set(rows.before, k) && (is_set(rows.level, k) || is_set(rows.ahead, k)))
}

/// How many of the first points stand before the other.
#[tactic(auto, using(crate::proofs::Words::bit_next, crate::proofs::Words::count_most))]
pub fn count_passed(rows: &Rows, points: usize) -> u32
    requires level { points ≤ 64 * length rows.now.level.now }
    requires below { points ≤ 64 * length rows.now.below.now }
    requires ahead { points ≤ 64 * length rows.now.ahead.now }
    requires before { points ≤ 64 * length rows.now.before.now }
    requires few { points ≤ 2 ^ 22 }
    ensures value { result ≡ count_to (is_set_passed rows.now.level.now rows.now.below.now rows.now.ahead.now rows.now.before.now) points }
    ensures bound { result ≤ points }
{
    let whole = points / 64;
    let mut count = count_words(rows, whole);
    for k in 64 * whole..points {
        if is_passed(rows, k) {
            count += 1;
        }
    }
    count
}
