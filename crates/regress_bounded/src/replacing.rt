//! Texts with others in the place of their matches, in so many steps.
ghost use Rattle.std.specs.Prelude.{◌≡◌, ◌⊎◌, ℕ, List, take, map, chars, IfOk, IfErr, IsErrOf, string_bytes};
ghost use Rattle.std.specs.Fn.{FnReturnsAt, FnOnceReturnsAt};
ghost use Rattle.regress_meaning.specs.Table.{Table};
ghost use Rattle.regress_meaning.specs.Pattern.{Pattern};
ghost use Rattle.regress_meaning.specs.Flags.{Options};
ghost use Rattle.regress_meaning.specs.Matches.{match_list};
ghost use Rattle.regress_meaning.specs.Offsets.{of_utf8, told};
ghost use Rattle.regress_replacing.specs.Replacing.{expansion, replaced};
ghost use Rattle.regress_replacing.specs.Syntax.{replacement_text};
ghost use Rattle.regress_replacing.specs.SyntaxViews.{syntax_of, text_of};
ghost use Rattle.regress_matched.specs.Answering.{AnswersEach, RefusesOne};
ghost use Rattle.regress_front.specs.Trees.{Tree};
ghost use Rattle.regress_engine_input.specs.Views.{utf8};
ghost use Rattle.regress_bounded.specs.Standing.{StandsFor, HasTree, tree_list, names_within, TakesAllAlongBytes};

use crate::bounded::Bounded;
use regress_engine_exec::SearchError;
use regress_match::Match;
use regress_replacing::{AnyReplacement, ReplacementSyntax};

impl<'r> Bounded<'r> {
    /// A text with its first match replaced by a replacement text, as `Regex::replace` answers it ("RegExp.prototype
    /// [ @@replace ]").
    ///
    /// Errs with `OutOfMemory` where a request for memory is refused, and with `TooManySteps` where the search takes too many
    /// steps.
    ///
    /// ```rust
    /// let swapped = bounded.replace("2023-12-25", "$2/$1")?; // for `(\d+)-(\d+)` it is `12/2023-25`
    /// ```
    pub fn replace(&self, text: &str, replacement: &str) -> Result<String, SearchError>
        ensures replaced { (t : Table) → (o : Options) → (p : Pattern) → StandsFor self.now t o p →
            let items = take 1 (map (told (of_utf8 text.now)) (match_list t o p (chars text.now) 0)) in
            IfOk result (λ s. string_bytes s ≡ replaced text.now items (map (expansion (names_within self.now) replacement.now text.now) items)) }
        ensures replaced_of_tree { (n : ℕ) → (t : Tree) → HasTree self.now n t →
            let items = take 1 (map (told (of_utf8 text.now)) (tree_list self.now n t (chars text.now) 0)) in
            IfOk result (λ s. string_bytes s ≡ replaced text.now items (map (expansion (names_within self.now) replacement.now text.now) items)) }
        ensures stopped { IsErrOf result SearchError.TooManySteps → TakesAllAlongBytes self.now utf8 text.now 0 }
    {
        self.replace_as(text, replacement, ReplacementSyntax::Regress)
    }

    /// A text with its first match replaced by a replacement text that is written in a language, as `Regex::replace_as` answers
    /// it ("GetSubstitution"). Errs as `replace` does.
    ///
    /// ```rust
    /// let marked = bounded.replace_as("on 25", "<$&>", ReplacementSyntax::EcmaScript)?; // for `\d+` it is `on <25>`
    /// ```
    pub fn replace_as(
        &self,
        text: &str,
        replacement: &str,
        syntax: ReplacementSyntax,
    ) -> Result<String, SearchError>
        ensures replaced { (t : Table) → (o : Options) → (p : Pattern) → StandsFor self.now t o p →
            let items = take 1 (map (told (of_utf8 text.now)) (match_list t o p (chars text.now) 0)) in
            IfOk result (λ s. string_bytes s ≡ replaced text.now items (map (replacement_text syntax (names_within self.now) replacement.now text.now) items)) }
        ensures replaced_of_tree { (n : ℕ) → (t : Tree) → HasTree self.now n t →
            let items = take 1 (map (told (of_utf8 text.now)) (tree_list self.now n t (chars text.now) 0)) in
            IfOk result (λ s. string_bytes s ≡ replaced text.now items (map (replacement_text syntax (names_within self.now) replacement.now text.now) items)) }
        ensures stopped { IsErrOf result SearchError.TooManySteps → TakesAllAlongBytes self.now utf8 text.now 0 }
    {
        self.replacen_as(text, 1, replacement, syntax)
    }

    /// A text with its first matches, at most `limit`, replaced by a replacement text, as `Regex::replacen` answers it, in so many
    /// steps for all searches together. Errs as `replace` does.
    ///
    /// ```rust
    /// let marked = bounded.replacen("a1b2c3", 2, "#")?; // for `\d` it is `a#b#c3`
    /// ```
    pub fn replacen(
        &self,
        text: &str,
        limit: usize,
        replacement: &str,
    ) -> Result<String, SearchError>
        ensures replaced { (t : Table) → (o : Options) → (p : Pattern) → StandsFor self.now t o p →
            let items = take limit (map (told (of_utf8 text.now)) (match_list t o p (chars text.now) 0)) in
            IfOk result (λ s. string_bytes s ≡ replaced text.now items (map (expansion (names_within self.now) replacement.now text.now) items)) }
        ensures replaced_of_tree { (n : ℕ) → (t : Tree) → HasTree self.now n t →
            let items = take limit (map (told (of_utf8 text.now)) (tree_list self.now n t (chars text.now) 0)) in
            IfOk result (λ s. string_bytes s ≡ replaced text.now items (map (expansion (names_within self.now) replacement.now text.now) items)) }
        ensures stopped { IsErrOf result SearchError.TooManySteps → TakesAllAlongBytes self.now utf8 text.now 0 }
    {
        self.replacen_as(text, limit, replacement, ReplacementSyntax::Regress)
    }

    /// A text with its first matches, at most `limit`, replaced by a replacement text that is written in a language, as
    /// `Regex::replacen_as` answers it, in so many steps for all searches together. Errs as `replace` does.
    ///
    /// ```rust
    /// let marked = bounded.replacen_as("a1b2c3", 2, "<$&>", ReplacementSyntax::EcmaScript)?; // for `\d` it is `a<1>b<2>c3`
    /// ```
    pub fn replacen_as(
        &self,
        text: &str,
        limit: usize,
        replacement: &str,
        syntax: ReplacementSyntax,
    ) -> Result<String, SearchError>
        ensures replaced { (t : Table) → (o : Options) → (p : Pattern) → StandsFor self.now t o p →
            let items = take limit (map (told (of_utf8 text.now)) (match_list t o p (chars text.now) 0)) in
            IfOk result (λ s. string_bytes s ≡ replaced text.now items (map (replacement_text syntax (names_within self.now) replacement.now text.now) items)) }
        ensures replaced_of_tree { (n : ℕ) → (t : Tree) → HasTree self.now n t →
            let items = take limit (map (told (of_utf8 text.now)) (tree_list self.now n t (chars text.now) 0)) in
            IfOk result (λ s. string_bytes s ≡ replaced text.now items (map (replacement_text syntax (names_within self.now) replacement.now text.now) items)) }
        ensures stopped { IsErrOf result SearchError.TooManySteps → TakesAllAlongBytes self.now utf8 text.now 0 }
    {
        match AnyReplacement::new(self.alloc, replacement, syntax) {
            Ok(read) => self.replace_first(text, limit, &read),
            Err(_) => Err(SearchError::OutOfMemory),
        }
    }

    /// A text with its first matches, at most `limit`, replaced by what a replacement text that was read stands for there.
    fn replace_first(
        &self,
        text: &str,
        limit: usize,
        read: &AnyReplacement<'_>,
    ) -> Result<String, SearchError>
        ensures replaced { (t : Table) → (o : Options) → (p : Pattern) → StandsFor self.now t o p →
            let items = take limit (map (told (of_utf8 text.now)) (match_list t o p (chars text.now) 0)) in
            IfOk result (λ s. string_bytes s ≡ replaced text.now items (map (replacement_text (syntax_of read.now) (names_within self.now) (text_of read.now) text.now) items)) }
        ensures replaced_of_tree { (n : ℕ) → (t : Tree) → HasTree self.now n t →
            let items = take limit (map (told (of_utf8 text.now)) (tree_list self.now n t (chars text.now) 0)) in
            IfOk result (λ s. string_bytes s ≡ replaced text.now items (map (replacement_text (syntax_of read.now) (names_within self.now) (text_of read.now) text.now) items)) }
        ensures stopped { IsErrOf result SearchError.TooManySteps → TakesAllAlongBytes self.now utf8 text.now 0 }
    {
        let matches = self.find_iter(text)?;
        regress_matched::replace_first(self.alloc, matches, text, limit, read)
    }

    /// A text with each match replaced by a replacement text, as `Regex::replace_all` answers it ("RegExp.prototype
    /// [ @@replace ]"), in so many steps for all searches together. Errs as `replace` does.
    ///
    /// ```rust
    /// let dotted = bounded.replace_all("hello world", "$1.$2")?; // for `\b(\w)(\w+)` it is `h.ello w.orld`
    /// ```
    pub fn replace_all(&self, text: &str, replacement: &str) -> Result<String, SearchError>
        ensures replaced { (t : Table) → (o : Options) → (p : Pattern) → StandsFor self.now t o p →
            let items = map (told (of_utf8 text.now)) (match_list t o p (chars text.now) 0) in
            IfOk result (λ s. string_bytes s ≡ replaced text.now items (map (expansion (names_within self.now) replacement.now text.now) items)) }
        ensures replaced_of_tree { (n : ℕ) → (t : Tree) → HasTree self.now n t →
            let items = map (told (of_utf8 text.now)) (tree_list self.now n t (chars text.now) 0) in
            IfOk result (λ s. string_bytes s ≡ replaced text.now items (map (expansion (names_within self.now) replacement.now text.now) items)) }
        ensures stopped { IsErrOf result SearchError.TooManySteps → TakesAllAlongBytes self.now utf8 text.now 0 }
    {
        self.replace_all_as(text, replacement, ReplacementSyntax::Regress)
    }

    /// A text with each match replaced by a replacement text that is written in a language, as `Regex::replace_all_as` answers it
    /// ("RegExp.prototype [ @@replace ]"), in so many steps for all searches together. Errs as `replace` does.
    ///
    /// ```rust
    /// let swapped = bounded.replace_all_as("a1 b2", "$2$1", ReplacementSyntax::EcmaScript)?; // for `(\w)(\d)` it is `1a 2b`
    /// ```
    pub fn replace_all_as(
        &self,
        text: &str,
        replacement: &str,
        syntax: ReplacementSyntax,
    ) -> Result<String, SearchError>
        ensures replaced { (t : Table) → (o : Options) → (p : Pattern) → StandsFor self.now t o p →
            let items = map (told (of_utf8 text.now)) (match_list t o p (chars text.now) 0) in
            IfOk result (λ s. string_bytes s ≡ replaced text.now items (map (replacement_text syntax (names_within self.now) replacement.now text.now) items)) }
        ensures replaced_of_tree { (n : ℕ) → (t : Tree) → HasTree self.now n t →
            let items = map (told (of_utf8 text.now)) (tree_list self.now n t (chars text.now) 0) in
            IfOk result (λ s. string_bytes s ≡ replaced text.now items (map (replacement_text syntax (names_within self.now) replacement.now text.now) items)) }
        ensures stopped { IsErrOf result SearchError.TooManySteps → TakesAllAlongBytes self.now utf8 text.now 0 }
    {
        match AnyReplacement::new(self.alloc, replacement, syntax) {
            Ok(read) => self.replace_each(text, &read),
            Err(_) => Err(SearchError::OutOfMemory),
        }
    }

    /// A text with each match replaced by what a replacement text that was read stands for there.
    fn replace_each(&self, text: &str, read: &AnyReplacement<'_>) -> Result<String, SearchError>
        ensures replaced { (t : Table) → (o : Options) → (p : Pattern) → StandsFor self.now t o p →
            let items = map (told (of_utf8 text.now)) (match_list t o p (chars text.now) 0) in
            IfOk result (λ s. string_bytes s ≡ replaced text.now items (map (replacement_text (syntax_of read.now) (names_within self.now) (text_of read.now) text.now) items)) }
        ensures replaced_of_tree { (n : ℕ) → (t : Tree) → HasTree self.now n t →
            let items = map (told (of_utf8 text.now)) (tree_list self.now n t (chars text.now) 0) in
            IfOk result (λ s. string_bytes s ≡ replaced text.now items (map (replacement_text (syntax_of read.now) (names_within self.now) (text_of read.now) text.now) items)) }
        ensures stopped { IsErrOf result SearchError.TooManySteps → TakesAllAlongBytes self.now utf8 text.now 0 }
    {
        let matches = self.find_iter(text)?;
        regress_matched::replace_each(self.alloc, matches, text, read)
    }

    /// A text with its first match replaced by the text that a closure answers to it, as `Regex::replace_with` answers it
    /// ("RegExp.prototype [ @@replace ]").
    ///
    /// Asks that the closure may be called on any match. Errs with what the closure errs with, and with what `replace` errs with,
    /// turned into the same type, which is any that implements `From<SearchError>`.
    ///
    /// ```rust
    /// let new = |_: &Match| -> Result<String, SearchError> { Ok(String::from_str(alloc, "$0")?) };
    /// let text = bounded.replace_with("Price: $123", new)?; // for `\d+` it is `Price: $$0`
    /// ```
    pub fn replace_with<E, F>(&self, text: &str, with: F) -> Result<String, E>
    where
        E: From<SearchError>,
        F: FnOnce(&Match) -> Result<String, E>,
        requires { F.IsAlwaysCallable with }
        ensures replaced { (t : Table) → (o : Options) → (p : Pattern) → StandsFor self.now t o p →
            let items = take 1 (map (told (of_utf8 text.now)) (match_list t o p (chars text.now) 0)) in
            IfOk result (λ s. (news : List (List ℕ)) × AnswersEach (FnOnceReturnsAt F.FnOnce with) (names_within self.now) items news
            × (string_bytes s ≡ replaced text.now items news)) }
        ensures replaced_of_tree { (n : ℕ) → (t : Tree) → HasTree self.now n t →
            let items = take 1 (map (told (of_utf8 text.now)) (tree_list self.now n t (chars text.now) 0)) in
            IfOk result (λ s. (news : List (List ℕ)) × AnswersEach (FnOnceReturnsAt F.FnOnce with) (names_within self.now) items news
            × (string_bytes s ≡ replaced text.now items news)) }
        ensures refused { (t : Table) → (o : Options) → (p : Pattern) → StandsFor self.now t o p →
            let items = take 1 (map (told (of_utf8 text.now)) (match_list t o p (chars text.now) 0)) in
            IfErr result (λ e. (E.from_gives SearchError.OutOfMemory e ⊎ (E.from_gives SearchError.TooManySteps e × TakesAllAlongBytes self.now utf8 text.now 0))
            ⊎ RefusesOne (FnOnceReturnsAt F.FnOnce with) (names_within self.now) items e) }
        ensures refused_of_tree { (n : ℕ) → (t : Tree) → HasTree self.now n t →
            let items = take 1 (map (told (of_utf8 text.now)) (tree_list self.now n t (chars text.now) 0)) in
            IfErr result (λ e. (E.from_gives SearchError.OutOfMemory e ⊎ (E.from_gives SearchError.TooManySteps e × TakesAllAlongBytes self.now utf8 text.now 0))
            ⊎ RefusesOne (FnOnceReturnsAt F.FnOnce with) (names_within self.now) items e) }
    {
        let matches = self.find_iter(text)?;
        regress_matched::replace_with(self.alloc, matches, text, with)
    }

    /// A text with each match replaced by the text that a closure answers to it, as `Regex::replace_all_with` answers it
    /// ("RegExp.prototype [ @@replace ]"), in so many steps for all searches together. The closure is called on the matches in
    /// order.
    ///
    /// Asks that the closure may be called on any match. Errs with the first error that the closure answers, and with what
    /// `replace` errs with, turned into the same type, which is any that implements `From<SearchError>`.
    ///
    /// ```rust
    /// let new = |_: &Match| -> Result<String, SearchError> { Ok(String::from_str(alloc, "#")?) };
    /// let text = bounded.replace_all_with("a1b22", new)?; // for `\d+` it is `a#b#`
    /// ```
    pub fn replace_all_with<E, F>(&self, text: &str, with: F) -> Result<String, E>
    where
        E: From<SearchError>,
        F: Fn(&Match) -> Result<String, E>,
        requires { F.IsAlwaysCallable with }
        ensures replaced { (t : Table) → (o : Options) → (p : Pattern) → StandsFor self.now t o p →
            let items = map (told (of_utf8 text.now)) (match_list t o p (chars text.now) 0) in
            IfOk result (λ s. (news : List (List ℕ)) × AnswersEach (FnReturnsAt F.Fn with) (names_within self.now) items news
            × (string_bytes s ≡ replaced text.now items news)) }
        ensures replaced_of_tree { (n : ℕ) → (t : Tree) → HasTree self.now n t →
            let items = map (told (of_utf8 text.now)) (tree_list self.now n t (chars text.now) 0) in
            IfOk result (λ s. (news : List (List ℕ)) × AnswersEach (FnReturnsAt F.Fn with) (names_within self.now) items news
            × (string_bytes s ≡ replaced text.now items news)) }
        ensures refused { (t : Table) → (o : Options) → (p : Pattern) → StandsFor self.now t o p →
            let items = map (told (of_utf8 text.now)) (match_list t o p (chars text.now) 0) in
            IfErr result (λ e. (E.from_gives SearchError.OutOfMemory e ⊎ (E.from_gives SearchError.TooManySteps e × TakesAllAlongBytes self.now utf8 text.now 0))
            ⊎ RefusesOne (FnReturnsAt F.Fn with) (names_within self.now) items e) }
        ensures refused_of_tree { (n : ℕ) → (t : Tree) → HasTree self.now n t →
            let items = map (told (of_utf8 text.now)) (tree_list self.now n t (chars text.now) 0) in
            IfErr result (λ e. (E.from_gives SearchError.OutOfMemory e ⊎ (E.from_gives SearchError.TooManySteps e × TakesAllAlongBytes self.now utf8 text.now 0))
            ⊎ RefusesOne (FnReturnsAt F.Fn with) (names_within self.now) items e) }
    {
        let matches = self.find_iter(text)?;
        regress_matched::replace_all_with(self.alloc, matches, text, with)
    }
}
