//! The bits that are set in a row of bytes, counted and searched by words of eight bytes.

ghost use Rattle.std.specs.Prelude.{◌≡◌, ◌-◌, ◌*◌, ◌<◌, ◌≤◌, length, drop, find};
ghost use Rattle.std.specs.Int.{w64, from_le_bytes};
ghost use Rattle.std.specs.List.{slice_get, range_with_len};
ghost use Rattle.view.specs.Bits.{bit_set, ones_of, ones_from, one_at};

/// Whether a bit of a byte is set.
#[tactic(auto, using(std::proofs::lemmas::Nat::Bits::shr_and_one))]
pub(super) fn is_set(byte: u8, bit: usize) -> bool
    requires { bit < 8 }
    ensures { result ≡ bit_set byte bit }
{
    byte >> bit & 1 == 1
}

/// Which bit of a byte is set when so many lower ones are.
fn nth_in_byte(byte: u8, place: usize) -> Option<usize>
    ensures { result ≡ slice_get (ones_of byte) place }
{
    (0..8).filter(|bit| is_set(byte, *bit)).nth(place)
}

/// How many bits of a row are set.
pub(super) fn count_ones(row: &[u8]) -> usize
    requires { length row.now ≤ 64 }
    ensures { result ≡ length (ones_from 0 row.now) }
{
    // a cast, as Rust has no `From<u32>` for `usize`
    (0..row.len().div_ceil(8))
        .map(|index| word_at(row, index).count_ones() as usize)
        .sum()
}

/// Which bit of a row is set when so many lower ones are.
pub(super) fn nth_one(row: &[u8], place: usize) -> Option<usize>
    requires { length row.now ≤ 64 }
    ensures { result ≡ slice_get (ones_from 0 row.now) place }
{
    let mut left = place;
    for (index, byte) in row.iter().enumerate() {
        let ones = byte.count_ones() as usize;
        if left < ones {
            let bit = nth_in_byte(*byte, left)?;
            return Some(8 * index + bit);
        }
        left -= ones;
    }
    None
}

/// A word of a row: eight bytes, the lowest first. Behind the end of the row they are 0.
fn word_at(row: &[u8], index: usize) -> u64
    requires { 8 * index ≤ length row.now }
    ensures { result ≡ from_le_bytes w64 (drop (8 * index) row.now) }
{
    let rest = &row[8 * index..];
    match rest.first_chunk() {
        Some(bytes) => u64::from_le_bytes(*bytes),
        None => rest
            .iter()
            .rev()
            .fold(0, |word, byte| word << 8 | u64::from(*byte)),
    }
}

/// The first bit of a row that is set, from a bit on.
pub(super) fn find_one(row: &[u8], from: usize) -> Option<usize>
    requires { length row.now ≤ 64 }
    ensures { result ≡ find (one_at row.now) (range_with_len from (8 * length row.now - from)) }
{
    let mut bit = from;
    while bit < 8 * row.len() {
        let rest = word_at(row, bit / 64) >> (bit % 64);
        if rest != 0 {
            // a cast, as Rust has no `From<u32>` for `usize`
            return Some(bit + rest.trailing_zeros() as usize);
        }
        bit = 64 * (bit / 64 + 1);
    }
    None
}
