//! Texts with others in the place of their matches.
ghost use Rattle.std.specs.Prelude.{◌≡◌, ◌⊎◌, ℕ, List, take, map, chars, IfOk, IfErr, IsOkUnless, string_bytes};
ghost use Rattle.std.specs.Fn.{FnReturnsAt, FnOnceReturnsAt};
ghost use Rattle.regress_meaning.specs.Table.{Table};
ghost use Rattle.regress_meaning.specs.Pattern.{Pattern};
ghost use Rattle.regress_meaning.specs.Flags.{Options};
ghost use Rattle.regress_meaning.specs.Matches.{match_list};
ghost use Rattle.regress_meaning.specs.Offsets.{of_utf8, told};
ghost use Rattle.regress_replacing.specs.Replacing.{expansion, replaced};
ghost use Rattle.regress_replacing.specs.Syntax.{replacement_text};
ghost use Rattle.regress_replacing.specs.SyntaxViews.{syntax_of, text_of};
ghost use Rattle.regress_front.specs.Trees.{Tree};
ghost use Rattle.regress.specs.Standing.{StandsFor, HasTree, tree_list, names_of_regex};
ghost use Rattle.regress_matched.specs.Answering.{AnswersEach, RefusesOne};

use crate::api::Regex;
use regress_front::Error;
use regress_match::Match;
use regress_replacing::{AnyReplacement, ReplacementSyntax};

impl Regex {
    /// A text with its first match replaced by a replacement text ("RegExp.prototype [ @@replace ]").
    ///
    /// In the replacement `$$` stands for `$`, `$` and digits for the text of the group with that number, where 0 is the whole
    /// match, and `${name}` for the text of the first group with that name; a group that took no part or is not there has no
    /// text. All else stands for itself. Errs with `OutOfMemory` alone.
    ///
    /// ```rust
    /// let swapped = regex.replace("2023-12-25", "$2/$1")?; // for `(\d+)-(\d+)` it is `12/2023-25`
    /// ```
    pub fn replace(&self, text: &str, replacement: &str) -> Result<String, Error>
        ensures replaced { (t : Table) → (o : Options) → (p : Pattern) → StandsFor self.now t o p →
            let items = take 1 (map (told (of_utf8 text.now)) (match_list t o p (chars text.now) 0)) in
            IfOk result (λ s. string_bytes s ≡ replaced text.now items (map (expansion (names_of_regex self.now) replacement.now text.now) items)) }
        ensures replaced_of_tree { (n : ℕ) → (t : Tree) → HasTree self.now n t →
            let items = take 1 (map (told (of_utf8 text.now)) (tree_list self.now n t (chars text.now) 0)) in
            IfOk result (λ s. string_bytes s ≡ replaced text.now items (map (expansion (names_of_regex self.now) replacement.now text.now) items)) }
        ensures refused { IsOkUnless result Error.OutOfMemory }
    {
        self.replace_as(text, replacement, ReplacementSyntax::Regress)
    }

    /// A text with its first match replaced by a replacement text that is written in a language: this library's, as `replace`
    /// reads it, or the standard's ("GetSubstitution").
    ///
    /// Errs with `OutOfMemory` alone.
    ///
    /// ```rust
    /// let marked = regex.replace_as("on 25", "<$&>", ReplacementSyntax::EcmaScript)?; // for `\d+` it is `on <25>`
    /// ```
    pub fn replace_as(
        &self,
        text: &str,
        replacement: &str,
        syntax: ReplacementSyntax,
    ) -> Result<String, Error>
        ensures replaced { (t : Table) → (o : Options) → (p : Pattern) → StandsFor self.now t o p →
            let items = take 1 (map (told (of_utf8 text.now)) (match_list t o p (chars text.now) 0)) in
            IfOk result (λ s. string_bytes s ≡ replaced text.now items (map (replacement_text syntax (names_of_regex self.now) replacement.now text.now) items)) }
        ensures replaced_of_tree { (n : ℕ) → (t : Tree) → HasTree self.now n t →
            let items = take 1 (map (told (of_utf8 text.now)) (tree_list self.now n t (chars text.now) 0)) in
            IfOk result (λ s. string_bytes s ≡ replaced text.now items (map (replacement_text syntax (names_of_regex self.now) replacement.now text.now) items)) }
        ensures refused { IsOkUnless result Error.OutOfMemory }
    {
        self.replacen_as(text, 1, replacement, syntax)
    }

    /// A text with its first matches replaced by a replacement text, which is read as `replace` says: at most `limit` of them,
    /// so none where that is 0.
    ///
    /// Errs with `OutOfMemory` alone.
    ///
    /// ```rust
    /// let marked = regex.replacen("a1b2c3", 2, "#")?; // for `\d` it is `a#b#c3`
    /// ```
    pub fn replacen(&self, text: &str, limit: usize, replacement: &str) -> Result<String, Error>
        ensures replaced { (t : Table) → (o : Options) → (p : Pattern) → StandsFor self.now t o p →
            let items = take limit (map (told (of_utf8 text.now)) (match_list t o p (chars text.now) 0)) in
            IfOk result (λ s. string_bytes s ≡ replaced text.now items (map (expansion (names_of_regex self.now) replacement.now text.now) items)) }
        ensures replaced_of_tree { (n : ℕ) → (t : Tree) → HasTree self.now n t →
            let items = take limit (map (told (of_utf8 text.now)) (tree_list self.now n t (chars text.now) 0)) in
            IfOk result (λ s. string_bytes s ≡ replaced text.now items (map (expansion (names_of_regex self.now) replacement.now text.now) items)) }
        ensures refused { IsOkUnless result Error.OutOfMemory }
    {
        self.replacen_as(text, limit, replacement, ReplacementSyntax::Regress)
    }

    /// A text with its first matches, at most `limit`, replaced by a replacement text that is written in a language, as
    /// `replace_as` has it.
    ///
    /// Errs with `OutOfMemory` alone.
    ///
    /// ```rust
    /// let marked = regex.replacen_as("a1b2c3", 2, "<$&>", ReplacementSyntax::EcmaScript)?; // for `\d` it is `a<1>b<2>c3`
    /// ```
    pub fn replacen_as(
        &self,
        text: &str,
        limit: usize,
        replacement: &str,
        syntax: ReplacementSyntax,
    ) -> Result<String, Error>
        ensures replaced { (t : Table) → (o : Options) → (p : Pattern) → StandsFor self.now t o p →
            let items = take limit (map (told (of_utf8 text.now)) (match_list t o p (chars text.now) 0)) in
            IfOk result (λ s. string_bytes s ≡ replaced text.now items (map (replacement_text syntax (names_of_regex self.now) replacement.now text.now) items)) }
        ensures replaced_of_tree { (n : ℕ) → (t : Tree) → HasTree self.now n t →
            let items = take limit (map (told (of_utf8 text.now)) (tree_list self.now n t (chars text.now) 0)) in
            IfOk result (λ s. string_bytes s ≡ replaced text.now items (map (replacement_text syntax (names_of_regex self.now) replacement.now text.now) items)) }
        ensures refused { IsOkUnless result Error.OutOfMemory }
    {
        let read = AnyReplacement::new(self.alloc, replacement, syntax)?;
        self.replace_first(text, limit, &read)
    }

    /// A text with its first matches, at most `limit`, replaced by what a replacement text that was read stands for there.
    fn replace_first(
        &self,
        text: &str,
        limit: usize,
        read: &AnyReplacement<'_>,
    ) -> Result<String, Error>
        ensures replaced { (t : Table) → (o : Options) → (p : Pattern) → StandsFor self.now t o p →
            let items = take limit (map (told (of_utf8 text.now)) (match_list t o p (chars text.now) 0)) in
            IfOk result (λ s. string_bytes s ≡ replaced text.now items (map (replacement_text (syntax_of read.now) (names_of_regex self.now) (text_of read.now) text.now) items)) }
        ensures replaced_of_tree { (n : ℕ) → (t : Tree) → HasTree self.now n t →
            let items = take limit (map (told (of_utf8 text.now)) (tree_list self.now n t (chars text.now) 0)) in
            IfOk result (λ s. string_bytes s ≡ replaced text.now items (map (replacement_text (syntax_of read.now) (names_of_regex self.now) (text_of read.now) text.now) items)) }
        ensures refused { IsOkUnless result Error.OutOfMemory }
    {
        let matches = self.find_iter(text)?;
        regress_matched::replace_first(self.alloc, matches, text, limit, read)
    }

    /// A text with each match replaced by a replacement text, which is read as `replace` says ("RegExp.prototype [ @@replace ]").
    ///
    /// Errs with `OutOfMemory` alone.
    ///
    /// ```rust
    /// let dotted = regex.replace_all("hello world", "$1.$2")?; // for `\b(\w)(\w+)` it is `h.ello w.orld`
    /// ```
    pub fn replace_all(&self, text: &str, replacement: &str) -> Result<String, Error>
        ensures replaced { (t : Table) → (o : Options) → (p : Pattern) → StandsFor self.now t o p →
            let items = map (told (of_utf8 text.now)) (match_list t o p (chars text.now) 0) in
            IfOk result (λ s. string_bytes s ≡ replaced text.now items (map (expansion (names_of_regex self.now) replacement.now text.now) items)) }
        ensures replaced_of_tree { (n : ℕ) → (t : Tree) → HasTree self.now n t →
            let items = map (told (of_utf8 text.now)) (tree_list self.now n t (chars text.now) 0) in
            IfOk result (λ s. string_bytes s ≡ replaced text.now items (map (expansion (names_of_regex self.now) replacement.now text.now) items)) }
        ensures refused { IsOkUnless result Error.OutOfMemory }
    {
        self.replace_all_as(text, replacement, ReplacementSyntax::Regress)
    }

    /// A text with each match replaced by a replacement text that is written in a language, as `replace_as` has it ("RegExp.prototype
    /// [ @@replace ]").
    ///
    /// Errs with `OutOfMemory` alone.
    ///
    /// ```rust
    /// let swapped = regex.replace_all_as("a1 b2", "$2$1", ReplacementSyntax::EcmaScript)?; // for `(\w)(\d)` it is `1a 2b`
    /// ```
    pub fn replace_all_as(
        &self,
        text: &str,
        replacement: &str,
        syntax: ReplacementSyntax,
    ) -> Result<String, Error>
        ensures replaced { (t : Table) → (o : Options) → (p : Pattern) → StandsFor self.now t o p →
            let items = map (told (of_utf8 text.now)) (match_list t o p (chars text.now) 0) in
            IfOk result (λ s. string_bytes s ≡ replaced text.now items (map (replacement_text syntax (names_of_regex self.now) replacement.now text.now) items)) }
        ensures replaced_of_tree { (n : ℕ) → (t : Tree) → HasTree self.now n t →
            let items = map (told (of_utf8 text.now)) (tree_list self.now n t (chars text.now) 0) in
            IfOk result (λ s. string_bytes s ≡ replaced text.now items (map (replacement_text syntax (names_of_regex self.now) replacement.now text.now) items)) }
        ensures refused { IsOkUnless result Error.OutOfMemory }
    {
        let read = AnyReplacement::new(self.alloc, replacement, syntax)?;
        self.replace_each(text, &read)
    }

    /// A text with each match replaced by what a replacement text that was read stands for there.
    fn replace_each(&self, text: &str, read: &AnyReplacement<'_>) -> Result<String, Error>
        ensures replaced { (t : Table) → (o : Options) → (p : Pattern) → StandsFor self.now t o p →
            let items = map (told (of_utf8 text.now)) (match_list t o p (chars text.now) 0) in
            IfOk result (λ s. string_bytes s ≡ replaced text.now items (map (replacement_text (syntax_of read.now) (names_of_regex self.now) (text_of read.now) text.now) items)) }
        ensures replaced_of_tree { (n : ℕ) → (t : Tree) → HasTree self.now n t →
            let items = map (told (of_utf8 text.now)) (tree_list self.now n t (chars text.now) 0) in
            IfOk result (λ s. string_bytes s ≡ replaced text.now items (map (replacement_text (syntax_of read.now) (names_of_regex self.now) (text_of read.now) text.now) items)) }
        ensures refused { IsOkUnless result Error.OutOfMemory }
    {
        let matches = self.find_iter(text)?;
        regress_matched::replace_each(self.alloc, matches, text, read)
    }

    /// A text with its first match replaced by the text that a closure answers to it ("RegExp.prototype [ @@replace ]"), as it
    /// stands: a `$` in it has no meaning.
    ///
    /// Asks that the closure may be called on any match. Errs with what the closure errs with, and with `OutOfMemory` turned
    /// into the same type, which is any that implements `From<Error>`.
    ///
    /// ```rust
    /// let new = |_: &Match| -> Result<String, Error> { Ok(String::from_str(alloc, "$0")?) };
    /// let text = regex.replace_with("Price: $123", new)?; // for `\d+` it is `Price: $$0`
    /// ```
    pub fn replace_with<E, F>(&self, text: &str, with: F) -> Result<String, E>
    where
        E: From<Error>,
        F: FnOnce(&Match) -> Result<String, E>,
        requires { F.IsAlwaysCallable with }
        ensures replaced { (t : Table) → (o : Options) → (p : Pattern) → StandsFor self.now t o p →
            let items = take 1 (map (told (of_utf8 text.now)) (match_list t o p (chars text.now) 0)) in
            IfOk result (λ s. (news : List (List ℕ)) × AnswersEach (FnOnceReturnsAt F.FnOnce with) (names_of_regex self.now) items news
            × (string_bytes s ≡ replaced text.now items news)) }
        ensures replaced_of_tree { (n : ℕ) → (t : Tree) → HasTree self.now n t →
            let items = take 1 (map (told (of_utf8 text.now)) (tree_list self.now n t (chars text.now) 0)) in
            IfOk result (λ s. (news : List (List ℕ)) × AnswersEach (FnOnceReturnsAt F.FnOnce with) (names_of_regex self.now) items news
            × (string_bytes s ≡ replaced text.now items news)) }
        ensures refused { (t : Table) → (o : Options) → (p : Pattern) → StandsFor self.now t o p →
            let items = take 1 (map (told (of_utf8 text.now)) (match_list t o p (chars text.now) 0)) in
            IfErr result (λ e. E.from_gives Error.OutOfMemory e ⊎ RefusesOne (FnOnceReturnsAt F.FnOnce with) (names_of_regex self.now) items e) }
        ensures refused_of_tree { (n : ℕ) → (t : Tree) → HasTree self.now n t →
            let items = take 1 (map (told (of_utf8 text.now)) (tree_list self.now n t (chars text.now) 0)) in
            IfErr result (λ e. E.from_gives Error.OutOfMemory e ⊎ RefusesOne (FnOnceReturnsAt F.FnOnce with) (names_of_regex self.now) items e) }
    {
        let matches = self.find_iter(text)?;
        regress_matched::replace_with(self.alloc, matches, text, with)
    }

    /// A text with each match replaced by the text that a closure answers to it ("RegExp.prototype [ @@replace ]"), as it
    /// stands: a `$` in it has no meaning. The closure is called on the matches in order.
    ///
    /// Asks that the closure may be called on any match. Errs with the first error that the closure answers, and with
    /// `OutOfMemory` turned into the same type, which is any that implements `From<Error>`.
    ///
    /// ```rust
    /// let new = |_: &Match| -> Result<String, Error> { Ok(String::from_str(alloc, "#")?) };
    /// let text = regex.replace_all_with("a1b22", new)?; // for `\d+` it is `a#b#`
    /// ```
    pub fn replace_all_with<E, F>(&self, text: &str, with: F) -> Result<String, E>
    where
        E: From<Error>,
        F: Fn(&Match) -> Result<String, E>,
        requires { F.IsAlwaysCallable with }
        ensures replaced { (t : Table) → (o : Options) → (p : Pattern) → StandsFor self.now t o p →
            let items = map (told (of_utf8 text.now)) (match_list t o p (chars text.now) 0) in
            IfOk result (λ s. (news : List (List ℕ)) × AnswersEach (FnReturnsAt F.Fn with) (names_of_regex self.now) items news
            × (string_bytes s ≡ replaced text.now items news)) }
        ensures replaced_of_tree { (n : ℕ) → (t : Tree) → HasTree self.now n t →
            let items = map (told (of_utf8 text.now)) (tree_list self.now n t (chars text.now) 0) in
            IfOk result (λ s. (news : List (List ℕ)) × AnswersEach (FnReturnsAt F.Fn with) (names_of_regex self.now) items news
            × (string_bytes s ≡ replaced text.now items news)) }
        ensures refused { (t : Table) → (o : Options) → (p : Pattern) → StandsFor self.now t o p →
            let items = map (told (of_utf8 text.now)) (match_list t o p (chars text.now) 0) in
            IfErr result (λ e. E.from_gives Error.OutOfMemory e ⊎ RefusesOne (FnReturnsAt F.Fn with) (names_of_regex self.now) items e) }
        ensures refused_of_tree { (n : ℕ) → (t : Tree) → HasTree self.now n t →
            let items = map (told (of_utf8 text.now)) (tree_list self.now n t (chars text.now) 0) in
            IfErr result (λ e. E.from_gives Error.OutOfMemory e ⊎ RefusesOne (FnReturnsAt F.Fn with) (names_of_regex self.now) items e) }
    {
        let matches = self.find_iter(text)?;
        regress_matched::replace_all_with(self.alloc, matches, text, with)
    }
}
