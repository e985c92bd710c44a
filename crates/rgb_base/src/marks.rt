//! Marks of texts, by which a builder finds a term that stands before.
ghost use Rattle.std.specs.Prelude.{◌≡◌};
ghost use Rattle.rgb_base.specs.Marks.{mark_after, mark_of};

/// The mark of no bytes.
const FIRST: u64 = 14695981039346656037;

/// The factor of each step.
const PRIME: u64 = 1099511628211;

/// The mark of a text.
pub fn mark_of(text: &str) -> u64
    ensures same { result ≡ mark_of text.now }
{
    let mut mark = FIRST;
    for byte in text.as_bytes() {
        mark = mark_after(mark, *byte);
    }
    mark
}

/// The mark with one byte more.
fn mark_after(mark: u64, byte: u8) -> u64
    ensures same { result ≡ mark_after mark byte }
{
    (mark ^ u64::from(byte)).wrapping_mul(PRIME)
}
