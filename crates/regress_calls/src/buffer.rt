//! Texts that are copied to a caller.
ghost use Rattle.std.specs.Prelude.{◌≡◌, ◌<◌, ◌≤◌, length};
ghost use Rattle.regress_calls.specs.Buffers.{IsCopied};

use regress_call_errors::CallError;

/// Copies a text to a buffer where there is room for it, with a null byte behind it where there is room for that too, and tells
/// how many bytes the text has. Where there is less room, the buffer stays as it was.
///
/// ```rust
/// copy_text(b"year", &mut buffer, &mut written)?; // `written` is 4
/// ```
pub fn copy_text(text: &[u8], buffer: &mut [u8], written: &mut usize) -> Result<(), CallError>
    ensures { IsCopied text.now buffer.old buffer.new written.new result }
{
    *written = text.len();
    if buffer.len() < text.len() {
        return Err(CallError::NoRoom);
    }
    buffer[..text.len()].copy_from_slice(text);
    if text.len() < buffer.len() {
        buffer[text.len()] = 0;
    }
    Ok(())
}
