//! What prints the atoms of terms, for other spellings that have them too.
//!
//! Each function appends to `out`. Where memory is wanting it may have appended a part; what stood there before always stays.
ghost use Rattle.std.specs.Prelude.{◌≡◌, ◌++◌, OnOk, length, take};
ghost use Rattle.std.specs.Fmt.{signed_decimal};
ghost use Rattle.rdx_term.specs.Text.{escaped, all_escaped, string_text};

use crate::error::NoMemory;
use itoa::Buffer;

/// Appends these bytes to `out`.
pub fn print_bytes(text: &[u8], out: &mut Vec<u8>) -> Result<(), NoMemory>
    ensures ok { OnOk result (out.new.items ≡ out.old.items ++ text.now) }
    ensures kept { take (length out.old.items) out.new.items ≡ out.old.items }
{
    out.extend_from_slice(text)?;
    Ok(())
}

/// Appends an integer in decimal to `out`, with `-` before it where it is negative.
pub fn print_integer(n: i128, out: &mut Vec<u8>) -> Result<(), NoMemory>
    ensures ok { OnOk result (out.new.items ≡ out.old.items ++ signed_decimal n) }
    ensures kept { take (length out.old.items) out.new.items ≡ out.old.items }
{
    let mut buffer = Buffer::new();
    print_bytes(buffer.format(n).as_bytes(), out)
}

/// Appends a string to `out`, between quotation marks, with `"`, `\`, LF, TAB and CR as escapes.
pub fn print_string(text: &[u8], out: &mut Vec<u8>) -> Result<(), NoMemory>
    ensures ok { OnOk result (out.new.items ≡ out.old.items ++ string_text text.now) }
    ensures kept { take (length out.old.items) out.new.items ≡ out.old.items }
{
    out.push(b'"')?;
    print_all_escaped(text, out)?;
    out.push(b'"')?;
    Ok(())
}

// The bytes of a string, each as `print_escaped` has it.
fn print_all_escaped(text: &[u8], out: &mut Vec<u8>) -> Result<(), NoMemory>
    ensures ok { OnOk result (out.new.items ≡ out.old.items ++ all_escaped text.now) }
    ensures kept { take (length out.old.items) out.new.items ≡ out.old.items }
{
    for byte in text {
        print_escaped(*byte, out)?;
    }
    Ok(())
}

// One byte of a string.
fn print_escaped(byte: u8, out: &mut Vec<u8>) -> Result<(), NoMemory>
    ensures ok { OnOk result (out.new.items ≡ out.old.items ++ escaped byte) }
    ensures kept { take (length out.old.items) out.new.items ≡ out.old.items }
{
    match byte {
        b'"' => print_bytes(b"\\\"", out),
        b'\\' => print_bytes(b"\\\\", out),
        b'\n' => print_bytes(b"\\n", out),
        b'\t' => print_bytes(b"\\t", out),
        b'\r' => print_bytes(b"\\r", out),
        _ => print_bytes(&[byte], out),
    }
}
