//! What an executor asks of an input.
ghost use Rattle.std.specs.Prelude.{◌≡◌};
ghost use Rattle.regress_engine_input.specs.Views.{View};

use regress_engine_matchers::CharInput;

/// What shows a text. It stands apart from how the text is read, so that what is known of it may be kept beside it.
pub trait Shown {
    // the kind, the units, the table and the mode
    ghost shown: { Self → View };
}

/// An input over which a program may be run: what it shows is what is read.
pub trait ExecutorInput: CharInput + Shown {
    // what it shows is what is read
    ghost shows: { (s : Self) → Self.shown s ≡ Self.view s };
}
