// What pairs and twists share: both are made of two parts.
ghost use Rattle.std.specs.Prelude.{◌≡◌, nat_le};
ghost use Rattle.scale.specs.Model.{only_if, most_values};
ghost use Rattle.compounds.specs.Halves.{half_of, product_size};

// A cut of one of the parts, by its number there.
#[derive(Clone, Copy)]
pub(crate) enum Half {
    First(u32),
    Second(u32),
}

// The part's cut of which cut j of the whole, which has that size, is made. The first part's cuts come first, so many; a scale
// of too many values has none.
pub(crate) fn cut_half(size: u32, first: u32, j: u32) -> Option<Half>
    ensures { result ≡ only_if (nat_le size most_values) (half_of first j) }
{
    if size > 4096 {
        None
    } else if j < first {
        Some(Half::First(j))
    } else {
        Some(Half::Second(j - first))
    }
}

// The size of two parts of sizes m and n, or 4,097 for more than 4,096.
pub(crate) fn product(m: u32, n: u32) -> u32
    ensures { result ≡ product_size m n }
{
    let size = m as u64 * n as u64;
    if size <= 4096 { size as u32 } else { 4097 }
}
