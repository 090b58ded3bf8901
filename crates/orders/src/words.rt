ghost use Rattle.std.specs.Prelude.{◌≡◌, slice_index};
ghost use Rattle.orders.specs.Words.{laid_out, readable, rows_of, opposites_of};

use std::array;

// How many values a table has, at least and at most.
const LEAST: usize = 2;

const MOST: usize = 16;

// Whether a word has kind 6, zero in bits 27 to 20, and a row below the limit.
fn is_laid_out(word: u32, limit: u32) -> bool
    ensures { result ≡ laid_out limit word }
{
    (word >> 28 == 6 && (word >> 20) % 256 == 0) && word % 65536 < limit
}

// Whether there are 2 to 16 words, each laid out as one of so many.
pub fn are_readable(words: &[u32]) -> bool
    ensures { result ≡ readable words.now }
{
    let count = words.len();
    (LEAST..=MOST).contains(&count) && words.iter().all(|word| is_laid_out(*word, 1 << count))
}

// The word of value k, or 0 past their count.
fn word(words: &[u32], k: usize) -> u32
    ensures { result ≡ slice_index words.now k }
{
    words.get(k).copied().unwrap_or(0)
}

// The row of each value.
pub fn read_rows(words: &[u32]) -> [u16; 16]
    ensures { result ≡ rows_of words.now }
{
    array::from_fn(|k| (word(words, k) % 65536) as u16)
}

// The opposite of each value.
pub fn read_opposites(words: &[u32]) -> [u8; 16]
    ensures { result ≡ opposites_of words.now }
{
    array::from_fn(|k| ((word(words, k) >> 16) % 16) as u8)
}
