//! The languages of replacement texts.

/// A language in which replacement texts are written.
#[derive(Debug, Clone, Copy, PartialEq, Eq)]
pub enum ReplacementSyntax {
    /// This library's own: `$0` is the whole match, `$1` the first group, `${name}` the group with a name, `$$` a `$`.
    Regress,
    /// That of the standard ("GetSubstitution"): `$&` is the whole match, `$1` the first group, `$<name>` the group with a name,
    /// `` $` `` what stands before the match, `$'` what stands behind it, `$$` a `$`.
    EcmaScript,
}
