//! Searches that may take so many steps, and no more.
ghost use Rattle.std.specs.Prelude.{◌≡◌, ◌≤◌, ℕ, None, true, IfSome};
ghost use Rattle.regress_meaning.specs.Table.{Table};
ghost use Rattle.regress_meaning.specs.Pattern.{Pattern};
ghost use Rattle.regress_meaning.specs.Flags.{Options};
ghost use Rattle.regress_front.specs.Trees.{Tree};
ghost use Rattle.regress_bounded.specs.Standing as bounded;
ghost use Rattle.regress.specs.Linear.{AreEnough, is_linear};
ghost use Rattle.regress.specs.Standing.{StandsFor, StandsInUnits, HasTree, HasTreeInUnits, byte_target, unit_target, names_of_regex, source_of};

use crate::api::Regex;
use regress_bounded::Bounded;

impl Regex {
    /// The pattern with a number of steps that each search with it may take, or all searches of an iteration together: its calls
    /// have the names of the calls here, and answer the same, or err with `TooManySteps` where they would take more steps. So a
    /// pattern of a stranger cannot keep a program busy. It takes no memory.
    ///
    /// Where the pattern is linear and the steps are enough (`linear_steps`), none errs so: after so many steps as are enough the search goes
    /// on by a table of the text, of a bit for each instruction of its program at each offset of the text.
    ///
    /// A step does the instruction of one state, or drops the state. One more is counted for each 64 bytes or units that a class passes over
    /// or that a back reference compares. What looks for the next place where a match may begin is not counted.
    ///
    /// ```rust
    /// fn count(regex: &Regex, text: &str) -> Result<usize, SearchError> {
    ///     let mut count = 0usize;
    ///     for found in regex.within(1_000_000).find_iter(text)? {
    ///         let range = found?.range(); // of `a+b` in `aab ab` 0..3, then 4..6
    ///         count = count.saturating_add(range.len());
    ///     }
    ///     Ok(count)
    /// }
    /// ```
    pub fn within(&self, steps: usize) -> Bounded<'_>
        ensures stands { (t : Table) → (o : Options) → (p : Pattern) → StandsFor self.now t o p → bounded.StandsFor result t o p }
        ensures stands_in_units { (t : Table) → (o : Options) → (p : Pattern) → StandsInUnits self.now t o p → bounded.StandsInUnits result t o p }
        ensures tree { (n : ℕ) → (t : Tree) → HasTree self.now n t → bounded.HasTree result n t }
        ensures tree_in_units { (n : ℕ) → (t : Tree) → HasTreeInUnits self.now n t → bounded.HasTreeInUnits result n t }
        ensures compiled { bounded.compiled_of result ≡ self.now.compiled }
        ensures named { bounded.names_within result ≡ names_of_regex self.now }
        ensures steps { bounded.steps_of result ≡ steps }
    {
        Bounded::new(self.alloc, &self.compiled, steps)
    }

    /// Works out whether the pattern is linear, and keeps the tables that tell: then as many steps as `linear_steps` tells are enough for a
    /// search `within` them, whatever the text is. It answers `is_linear`; all else of the regex stays as it is. It takes up to 0.6 of the
    /// time that compiling took, and memory that grows as the programs do; where that is refused a pattern isn't known to be linear.
    ///
    /// A pattern is linear that has no back reference; whose repetitions may go on without end or are of one iteration at most, with a least
    /// number of 0 or 1, or are of one character and have numbers up to 256; in which what is repeated can't be empty; and whose lookarounds
    /// are negated, or have no groups or no quantifiers inside, or are visited at most once: inside of nothing that is repeated, in a pattern
    /// that begins with a `^` without `m`. Where more than a character is repeated in such a one, it holds no other lookaround with groups.
    /// Its program has at most 65,536 instructions. What has to be repeated more often is written out where it is short, so `(?:ab){2,}` is
    /// linear too.
    ///
    /// ```rust
    /// let mut regex = Regex::with_flags(alloc, "(a|ab)*c", Flags::default(), &tables)?;
    /// let linear = regex.learn_linear(); // true; of `(a)\1` false
    /// ```
    pub fn learn_linear(&mut self) -> bool
        ensures linear { result ≡ is_linear self.new }
        ensures learned { is_linear self.old ≡ true → result ≡ true }
        ensures stands { (t : Table) → (o : Options) → (p : Pattern) → StandsFor self.old t o p → StandsFor self.new t o p }
        ensures stands_in_units { (t : Table) → (o : Options) → (p : Pattern) → StandsInUnits self.old t o p → StandsInUnits self.new t o p }
        ensures named { names_of_regex self.new ≡ names_of_regex self.old }
        ensures programs { (byte_target self.new ≡ byte_target self.old) × (unit_target self.new ≡ unit_target self.old) }
        ensures text { source_of self.new ≡ source_of self.old }
    {
        self.compiled.learn_linear(self.alloc);
        self.is_linear()
    }

    /// Whether the pattern is known to be linear: `learn_linear` has found that it is.
    ///
    /// ```rust
    /// let linear = regex.is_linear();
    /// ```
    pub fn is_linear(&self) -> bool
        ensures { result ≡ is_linear self.now }
    {
        self.compiled.byte_table().is_some() && self.compiled.unit_table().is_some()
    }

    /// How many steps are enough for each search, and for each iteration, in a text of so many bytes or 16-bit units: `within` so many or
    /// more none errs with `TooManySteps`. `None` where the pattern isn't known to be linear (`learn_linear`), and where the table of such a text
    /// would take more than 64 MB, a bit for each instruction at each offset, or more than 8,388,608 offsets would be kept while it is made,
    /// one for each instruction inside of an atomic group at each offset.
    ///
    /// ```rust
    /// fn first(regex: &Regex, text: &str) -> Result<Option<Match>, SearchError> {
    ///     let steps = regex.linear_steps(text.len()).unwrap_or(1_000_000);
    ///     regex.within(steps).find(text)
    /// }
    /// ```
    pub fn linear_steps(&self, units: usize) -> Option<usize>
        ensures enough { IfSome result (λ n. (steps : ℕ) → n ≤ steps → AreEnough self.now units steps) }
        ensures least { IfSome result (λ n. (steps : ℕ) → AreEnough self.now units steps → n ≤ steps) }
        ensures none { result ≡ None → (steps : ℕ) → AreEnough self.now units steps → ⊥ }
    {
        let in_bytes = self.compiled.byte_steps(units)?;
        let in_units = self.compiled.unit_steps(units)?;
        Some(in_bytes.max(in_units))
    }
}
