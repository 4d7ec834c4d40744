//! Words of a list.

ghost use Rattle.std.specs.Prelude.{◌≡◌, ◌≤◌, length};
ghost use Rattle.byte_rules.specs.Among.{common, nearer};

/// How many bytes the two have in common at the front.
#[tactic(auto, using(crate::proofs::Fronts::goes, crate::proofs::Fronts::differs, crate::proofs::Fronts::word_ends, crate::proofs::Fronts::bytes_end))]
pub fn common(word: &[u8], bytes: &[u8]) -> usize
    ensures count { result ≡ common word.now bytes.now }
    ensures within { (result ≤ length word.now) × (result ≤ length bytes.now) }
{
    let mut count = 0;
    while count < word.len() && count < bytes.len() && word[count] == bytes[count] {
        count += 1;
    }
    count
}

/// How far some word goes with the bytes, and the value of the word that ends there, with one word
/// more.
pub fn nearer<T: Copy>(
    near: (usize, Option<T>),
    value: T,
    word: &[u8],
    bytes: &[u8],
) -> (usize, Option<T>)
    ensures { result ≡ nearer word.now bytes.now value near }
{
    let count = common(word, bytes);
    if count < near.0 {
        near
    } else if word.len() == count {
        (count, Some(value))
    } else if count == near.0 {
        near
    } else {
        (count, None)
    }
}
