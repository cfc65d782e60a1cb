//! Why a pattern is not compiled, as C has it.
ghost use Rattle.std.specs.Prelude.{◌≡◌};
ghost use Rattle.regress_c.specs.Compiled.{refusal_code};

use regress_calls::Refusal;

/// How many bytes the text of an error has at most, with the null byte behind it.
const TEXT_ROOM: usize = 64;

/// Why a pattern is not compiled.
#[repr(C)]
#[derive(Drop)]
pub struct PatternError {
    pub code: i32,
    pub place: usize,
    pub text: [u8; TEXT_ROOM],
}

/// The first bytes of a text, with null bytes behind them.
fn shown(text: &str) -> [u8; TEXT_ROOM] {
    let mut bytes = [0; TEXT_ROOM];
    for (to, from) in bytes[..TEXT_ROOM - 1].iter_mut().zip(text.as_bytes()) {
        *to = *from;
    }
    bytes
}

impl PatternError {
    /// What is told of a refusal, or that there is none.
    fn of(done: Result<(), Refusal>) -> PatternError
        ensures { result.code ≡ refusal_code done }
    {
        match done {
            Ok(()) => PatternError {
                code: 0,
                place: 0,
                text: shown(""),
            },
            Err(refused) => PatternError {
                code: refused.error.code(),
                place: refused.place,
                text: shown(refused.text),
            },
        }
    }

    /// Tells of a refusal, or that there is none, and answers its code.
    pub(crate) fn tell(&mut self, done: Result<(), Refusal>) -> i32
        ensures code { result ≡ refusal_code done }
        ensures told { self.new.code ≡ result }
    {
        *self = PatternError::of(done);
        self.code
    }
}
