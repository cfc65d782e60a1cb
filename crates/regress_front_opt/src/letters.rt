//! Characters as literals.
ghost use Rattle.std.specs.Prelude.{◌≡◌, false, encode_utf8, IfOk, MatchOption};
ghost use Rattle.regress_meaning.specs.TableParts.{is_surrogate};
ghost use Rattle.regress_front_nodes.specs.Trees.{tree, char};
ghost use Rattle.regress_front_rules.specs.NormalForm.{is_loose_char};
ghost use Rattle.regress_front_rules.specs.Rules.{HasLaws};

use crate::action::PassAction;
use crate::passing::Pass;
use regress_front_nodes::Node;
use regress_front_tables::Error;
use std::alloc::{AllocError, Global};

/// A `Char` that is no surrogate is a literal.
#[derive(Drop)]
pub struct SpelledChars;

/// The character of a `Char` that is no surrogate.
fn letter_of(node: &Node) -> Option<char>
    requires { HasLaws (tree node.now) }
    ensures { MatchOption result (is_loose_char (tree node.now) ≡ false) (λ c. (tree node.now ≡ char c) × (is_surrogate c ≡ false)) }
{
    match node {
        Node::Char { c } => char::from_u32(*c),
        _ => None,
    }
}

/// The bytes of a character in UTF-8.
fn spelled(alloc: Global, letter: char) -> Result<Vec<u8>, AllocError>
    ensures { IfOk result (λ bytes. bytes.items ≡ encode_utf8 letter) }
{
    let mut bytes = [0; 4];
    Ok(letter.encode_utf8(&mut bytes).as_bytes().to_vec(alloc)?)
}

impl Pass for SpelledChars {
    ghost broken = { is_loose_char };

    fn rewrite(
        &self,
        alloc: Global,
        _in_lookbehind: bool,
        node: &mut Node,
    ) -> Result<PassAction, Error> {
        let Some(letter) = letter_of(node) else {
            return Ok(PassAction::Keep);
        };
        let bytes = spelled(alloc, letter)?;
        Ok(PassAction::Replace(Node::ByteSequence(bytes)))
    }
}
