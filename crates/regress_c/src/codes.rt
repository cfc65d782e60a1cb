//! Answers as numbers.
ghost use Rattle.std.specs.Prelude.{◌≡◌, ◌≤◌, IfOk};
ghost use Rattle.regress_calls.specs.Codes.{code_of, done_code, truth_code as truth};

use regress_calls::CallError;

/// A count, or the code of an error.
pub(crate) fn count_code(counted: Result<usize, CallError>) -> i32
    requires { IfOk counted (λ n. n ≤ 65536) }
    ensures { result ≡ code_of counted }
{
    match counted {
        Ok(count) => count as i32,
        Err(refused) => refused.code(),
    }
}

/// 1 for yes and 0 for no, or the code of an error.
pub(crate) fn truth_code(told: Result<bool, CallError>) -> i32
    ensures { result ≡ truth told }
{
    match told {
        Ok(true) => 1,
        Ok(false) => 0,
        Err(refused) => refused.code(),
    }
}

/// 0, or the code of an error.
pub(crate) fn done_code(done: Result<(), CallError>) -> i32
    ensures { result ≡ done_code done }
{
    match done {
        Ok(()) => 0,
        Err(refused) => refused.code(),
    }
}
