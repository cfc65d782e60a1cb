//! Words in groups, each of one character.
ghost use Rattle.std.specs.Prelude.{◌≡◌, ◌<◌, ◌++◌, [], ◌∷◌, true, MatchOption, IfOk, slice_get, length};
ghost use Rattle.regress_front_words.specs.Sharing.{spelled, behind, AreLong};
ghost use Rattle.regress_front_words.specs.Grouping.{AreGrouped, IsPlaceOf, HasMoreAt, IsAdded, IsRearranged, joined};

use std::alloc::{AllocError, Global};

/// Words that go on with the same character, or a word that ends: then its character is `None`.
#[derive(Drop)]
struct Group {
    letter: Option<char>,
    words: Vec<Vec<char>>,
}

/// The character of a word at a place, or `None` if it ends there.
fn letter_at(word: &[char], place: usize) -> Option<char>
    ensures { result ≡ slice_get word.now place }
{
    word.get(place).copied()
}

/// The same word once more.
fn copy_of(alloc: Global, word: &[char]) -> Result<Vec<char>, AllocError>
    ensures { IfOk result (λ copy. copy.items ≡ word.now) }
{
    word.iter().copied().collect(alloc)
}

/// The last group of a character, if behind it are only groups of other characters.
fn place_of(groups: &[Group], letter: Option<char>) -> Option<usize>
    ensures { MatchOption result (true ≡ true) (λ k. IsPlaceOf letter k groups.now) }
{
    let Some(letter) = letter else {
        return None;
    };
    for passed in 0..groups.len() {
        let place = groups.len() - 1 - passed;
        let Some(other) = groups[place].letter else {
            return None;
        };
        if other == letter {
            return Some(place);
        }
    }
    None
}

/// Adds a word to the group at a place.
fn add_to_group(groups: &mut [Group], at: usize, word: Vec<char>) -> Result<(), AllocError>
    requires { at < length groups.old }
    ensures { IfOk result (λ _. HasMoreAt at word.items groups.old groups.new) }
{
    groups[at].words.push(word)?;
    Ok(())
}

/// Adds a word to the last group of its character, if behind it are only groups of other characters, or else as a group of its
/// own: `ab` joins `aa`, and with it stands before `c`.
fn add_word(
    alloc: Global,
    groups: &mut Vec<Group>,
    word: Vec<char>,
    place: usize,
) -> Result<(), AllocError>
    requires { AreGrouped place groups.old.items }
    ensures kept { IfOk result (λ _. AreGrouped place groups.new.items) }
    ensures added { IfOk result (λ _. IsAdded place word.items (joined groups.old.items) (joined groups.new.items)) }
{
    let letter = letter_at(&word, place);
    match place_of(groups, letter) {
        Some(found) => {
            add_to_group(groups, found, word)?;
            Ok(())
        }
        None => {
            let mut words = Vec::new(alloc);
            words.push(word)?;
            groups.push(Group { letter, words })?;
            Ok(())
        }
    }
}

/// The words of all groups, one group behind another.
fn words_of(alloc: Global, mut groups: Vec<Group>) -> Result<Vec<Vec<char>>, AllocError>
    ensures { IfOk result (λ ws. spelled ws.items ≡ joined groups.items) }
{
    let mut words = Vec::new(alloc);
    for group in groups.iter_mut() {
        words.append(&mut group.words)?;
    }
    Ok(words)
}

/// Words in groups of what stands at a place: `case`, `do`, `catch` as `case`, `catch`, `do`. A word changes places only with
/// those that go on with another character, so none with one that ends.
pub(crate) fn grouped(
    alloc: Global,
    words: &[Vec<char>],
    place: usize,
) -> Result<Vec<Vec<char>>, AllocError>
    requires { AreLong place (spelled words.now) }
    ensures long { IfOk result (λ ws. AreLong place (spelled ws.items)) }
    ensures len { IfOk result (λ ws. length ws.items ≡ length words.now) }
    ensures same { IfOk result (λ ws. IsRearranged (behind place (spelled ws.items)) (behind place (spelled words.now))) }
{
    let mut groups = Vec::new(alloc);
    for word in words {
        add_word(alloc, &mut groups, copy_of(alloc, word)?, place)?;
    }
    words_of(alloc, groups)
}
