// A list of names in mark order, one space between two: whether it is proper, and which mark a name stands for.
ghost use Rattle.std.specs.Prelude.{◌≡◌, ℕ, length, Decides, MatchOption, ◌==◌};
ghost use Rattle.tokens.specs.Bytes.{Name};
ghost use Rattle.tokens.specs.Names.{names_of, Listed, Proper};

use super::{MOST_BEHIND, in_name};

// Whether a byte parts two names.
fn is_space(b: &u8) -> bool
    ensures { result ≡ (b.now == 32) }
{
    *b as char == ' '
}

// Whether the bytes are a name.
fn is_name(bytes: &[u8]) -> bool
    ensures { Decides result (Name bytes.now) }
{
    let Some((first, behind)) = bytes.split_first() else {
        return false;
    };
    first.is_ascii_lowercase() && behind.len() <= MOST_BEHIND && behind.iter().all(|b| in_name(*b))
}

// The first place of a name in the list, which is the number of its mark.
pub fn mark_of(list: &[u8], name: &[u8]) -> Option<usize>
    ensures { MatchOption result ((m : ℕ) → Listed list.now name.now m → ⊥) (λ m. Listed list.now name.now m) }
{
    if list.is_empty() {
        return None;
    }
    list.split(is_space).position(|part| part == name)
}

// Whether the part is a name, and the first place of it in the list is `mark`.
fn is_named(list: &[u8], mark: usize, part: &[u8]) -> bool
    ensures { Decides result (Name part.now × Listed list.now part.now mark) }
{
    is_name(part) && mark_of(list, part) == Some(mark)
}

// Whether the list is exactly `marks` distinct names with one space between two. It is read to the end only if its parts are names,
// and no more than `marks`: a list that is not proper may be long.
pub fn proper(list: &[u8], marks: u8) -> bool
    ensures { Decides result (Proper list.now marks) }
{
    let most = marks as usize;
    if list.is_empty() {
        return most == 0;
    }
    list.split(is_space)
        .enumerate()
        .all(|(mark, part)| mark < most && is_named(list, mark, part))
        && count(list) == most
}

// How many names the list has, proper or not: one more than its spaces, and none if it is empty.
pub fn count(list: &[u8]) -> usize
    ensures { result ≡ length (names_of list.now) }
{
    if list.is_empty() {
        return 0;
    }
    list.split(is_space).count()
}
