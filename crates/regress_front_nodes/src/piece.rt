//! Pieces: what the code points of a string may be, one after another.
ghost use Rattle.std.specs.Prelude.{◌≡◌, ◌≤◌, ℕ, Bool, true, false, [], ◌∷◌, List, length, reverse, All, map, nat_lt, IfOk, OnOk, IsOkUnless, MatchOption};
ghost use Rattle.std.specs.List.{list_all};
ghost use Rattle.regress_meaning.specs.TableParts.{is_code_point};
ghost use Rattle.regress_meaning.specs.Meaning.{Context, State, Forward, Backward, step, same_all};
ghost use Rattle.regress_front_tables.specs.TableViews.{table};
ghost use Rattle.regress_front_nodes.specs.Trees.{Tree, tree, cat_of};
ghost use Rattle.regress_front_nodes.specs.TreeMeaning.{node_outcomes};
ghost use Rattle.regress_front_nodes.specs.WellFormed.{AreLawful};

use crate::node::{Node, NodeList};
use regress_front_tables::{CodePoint, Error, Tables, try_expand_code_point};
use std::alloc::{AllocError, Global};
use std::mem;

/// What one code point of a string may be, or some one after another.
#[derive(Debug, Drop)]
pub enum Piece {
    /// This code point. It is a surrogate, which has no bytes in UTF-8.
    Char(CodePoint),
    /// These characters one after another, as their bytes in UTF-8.
    ByteSequence(Vec<u8>),
    /// One of these ASCII characters, which are in order.
    ByteSet(Vec<u8>),
    /// One of these code points, which are in order and not all ASCII.
    CharSet(Vec<CodePoint>),
}

/// The node of the same name.
impl From<Piece> for Node {
    ghost use Rattle.regress_front_nodes.specs.Pieces.{piece_tree};

    ghost from_gives = { λ piece node. tree node ≡ piece_tree piece };

    fn from(piece: Piece) -> Node {
        match piece {
            Piece::Char(c) => Node::Char { c },
            Piece::ByteSequence(bytes) => Node::ByteSequence(bytes),
            Piece::ByteSet(bytes) => Node::ByteSet(bytes),
            Piece::CharSet(cps) => Node::CharSet(cps),
        }
    }
}

impl Piece {
    ghost use Rattle.regress_front_nodes.specs.Pieces.{piece_tree};

    /// The nodes of pieces, in their order: `Node::Cat(Piece::into_nodes(alloc, pieces)?)` matches the string of the pieces.
    /// Where memory is refused the error is `OutOfMemory`, and there is no other.
    pub fn into_nodes(alloc: Global, pieces: Vec<Piece>) -> Result<NodeList, Error>
        ensures nodes { IfOk result (λ nodes. map tree nodes.items ≡ map piece_tree pieces.items) }
        ensures refused { IsOkUnless result Error.OutOfMemory }
    {
        let mut nodes = Vec::new(alloc);
        for piece in pieces {
            nodes.push(Node::from(piece))?;
        }
        Ok(nodes)
    }
}

/// The pieces of the beginning of a string, but for the literal at its end.
#[derive(Drop)]
struct OpenPieces {
    pieces: Vec<Piece>,
    /// The bytes of that literal, which may be none.
    literal: Vec<u8>,
}

impl OpenPieces {
    ghost use Rattle.regress_front_nodes.specs.Pieces.{piece_tree, before, completed};

    /// Ends the literal.
    fn close(&mut self, alloc: Global) -> Result<(), AllocError>
        ensures pieces { OnOk result (map piece_tree self.new.pieces.items ≡ completed self.old []) }
        ensures literal { OnOk result (self.new.literal.items ≡ []) }
    {
        if !self.literal.is_empty() {
            let literal = mem::replace(&mut self.literal, Vec::new(alloc));
            self.pieces.push(Piece::ByteSequence(literal))?;
        }
        Ok(())
    }

    /// Adds a code point that stands for itself alone.
    fn add_one(&mut self, alloc: Global, cp: CodePoint) -> Result<(), AllocError>
        requires { cp ≤ 0x10_FFFF }
        ensures { OnOk result ((ts : List Tree) → completed self.new ts ≡ completed self.old (before (cp ∷ []) ts)) }
    {
        match char::from_u32(cp) {
            Some(letter) => {
                let mut bytes = [0; 4];
                let spelled = letter.encode_utf8(&mut bytes);
                self.literal.extend_from_slice(spelled.as_bytes())?;
            }
            None => {
                self.close(alloc)?;
                self.pieces.push(Piece::Char(cp))?;
            }
        }
        Ok(())
    }

    /// Adds a code point, given as all that it stands for.
    fn add(&mut self, alloc: Global, members: Vec<CodePoint>) -> Result<(), AllocError>
        requires { All (λ c. c ≤ 0x10_FFFF) members.items }
        ensures { OnOk result ((ts : List Tree) → completed self.new ts ≡ completed self.old (before members.items ts)) }
    {
        if members.len() == 1 {
            return self.add_one(alloc, members[0]);
        }
        self.close(alloc)?;
        let set = match ascii_bytes(alloc, &members)? {
            Some(bytes) => Piece::ByteSet(bytes),
            None => Piece::CharSet(members),
        };
        self.pieces.push(set)?;
        Ok(())
    }
}

/// The code points as bytes, in their order; `None` where one is not ASCII.
///
/// It errs where memory is refused.
///
/// ```rust
/// let bytes = ascii_bytes(alloc, &[0x61, 0x62])?; // `Some` of the bytes of "ab"
/// ```
pub fn ascii_bytes(alloc: Global, cps: &[CodePoint]) -> Result<Option<Vec<u8>>, AllocError>
    ensures { IfOk result (λ o. MatchOption o (list_all (λ c. nat_lt c 0x80) cps.now ≡ false) (λ bs. (list_all (λ c. nat_lt c 0x80) cps.now ≡ true) × (bs.items ≡ cps.now))) }
{
    let mut bytes = Vec::new(alloc);
    for cp in cps {
        if *cp >= 0x80 {
            return Ok(None);
        }
        bytes.push(*cp as u8)?;
    }
    Ok(Some(bytes))
}

ghost use Rattle.regress_front_nodes.specs.Pieces.{piece_tree, pieces_of};

/// The pieces of a string that is given as code points: each stands for itself, or where case is ignored for all with its
/// fold in Unicode mode, and else for all with its upper case ("CharacterSetMatcher"). Neighbours that stand for themselves
/// alone are one literal, but for surrogates, which UTF-8 can't spell. A set has at most four members.
///
/// Asks that all are code points, as `are_code_points` tells. Where memory is refused the error is `OutOfMemory`, and there is
/// no other.
///
/// ```rust
/// let pieces = lower_code_point_sequence(alloc, &[0x61, 0x21], true, true, &tables)?;
/// let nodes = Piece::into_nodes(alloc, pieces)?; // a `ByteSet` of `A` and `a`, then a `ByteSequence` of `!`
/// ```
pub fn lower_code_point_sequence(
    alloc: Global,
    cps: &[CodePoint],
    icase: bool,
    unicode: bool,
    tables: &Tables,
) -> Result<Vec<Piece>, Error>
    requires { All (λ c. c ≤ 0x10_FFFF) cps.now }
    ensures pieces { IfOk result (λ pieces. map piece_tree pieces.items ≡ pieces_of (table tables.now) icase unicode cps.now) }
    ensures lawful { IfOk result (λ pieces. All (AreLawful 0) (map piece_tree pieces.items)) }
    ensures refused { IsOkUnless result Error.OutOfMemory }
{
    Ok(try_lower_code_point_sequence(alloc, cps, icase, unicode, tables)?)
}

/// `lower_code_point_sequence`, where the error is the allocator's:
/// `try_lower_code_point_sequence(alloc, &[0x61, 0x21], true, true, &tables)?` in what fails with nothing but `AllocError`.
pub fn try_lower_code_point_sequence(
    alloc: Global,
    cps: &[CodePoint],
    icase: bool,
    unicode: bool,
    tables: &Tables,
) -> Result<Vec<Piece>, AllocError>
    requires { All (λ c. c ≤ 0x10_FFFF) cps.now }
    ensures pieces { IfOk result (λ pieces. map piece_tree pieces.items ≡ pieces_of (table tables.now) icase unicode cps.now) }
    ensures lawful { IfOk result (λ pieces. All (AreLawful 0) (map piece_tree pieces.items)) }
{
    let mut front = OpenPieces {
        pieces: Vec::new(alloc),
        literal: Vec::new(alloc),
    };
    for cp in cps {
        let members = try_expand_code_point(alloc, *cp, icase, unicode, tables)?;
        front.add(alloc, members)?;
    }
    front.close(alloc)?;
    Ok(front.pieces)
}

/// The nodes of a string's pieces, one after another, match exactly what the string does: the characters of the text that are
/// its own, or where case is ignored have the canon of its own, one by one. From right to left so do the nodes in reverse.
pub fn pieces_match_their_string()
    ensures forward { (context : Context) → (icase : Bool) → (cs : List ℕ) → (s : State) → All is_code_point context.text → All is_code_point cs → s.place ≤ length context.text → node_outcomes context (cat_of (pieces_of context.table icase context.unicode cs)) Forward s ≡ step context Forward (length cs) (same_all context.table context.unicode icase cs) s }
    ensures backward { (context : Context) → (icase : Bool) → (cs : List ℕ) → (s : State) → All is_code_point context.text → All is_code_point cs → s.place ≤ length context.text → node_outcomes context (cat_of (reverse (pieces_of context.table icase context.unicode cs))) Backward s ≡ step context Backward (length cs) (same_all context.table context.unicode icase cs) s }
{}
