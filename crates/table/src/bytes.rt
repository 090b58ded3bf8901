// The words of a file: 32 bits each, the least significant byte first.
ghost use Rattle.std.specs.Prelude.{◌≡◌, IfOk};
ghost use Rattle.table.specs.Bytes.{whole_words};

use std::alloc::{AllocError, Global};

// The whole words that the bytes spell.
pub fn words_of(heap: Global, bytes: &[u8]) -> Result<Vec<u32>, AllocError>
    ensures { IfOk result (λ v. v.items ≡ whole_words bytes.now) }
{
    let mut words = Vec::new(heap);
    let mut rest = bytes;
    // a pattern takes the four bytes by name, where a chunk of `chunks_exact` would be read by index
    'words: while let [a, b, c, d, more @ ..] = rest {
        words.push(u32::from_le_bytes([*a, *b, *c, *d]))?;
        rest = more;
    }
    Ok(words)
}
