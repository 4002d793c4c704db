ghost use Rattle.std.specs.Prelude.{◌≡◌, ◌++◌, ◌+◌, ◌<◌, ◌≤◌, ◌^◌, OnOk, length};
ghost use Rattle.std.specs.Fmt.{decimal, signed_decimal};
ghost use Rattle.mp_termtext.specs.Printing.{name_text, escaped, quoted};

use itoa::Buffer;
use mp_logic::NoMemory;

/// Appends the bytes. Where there is no memory, some of them may have been appended.
pub fn push_bytes(out: &mut Vec<u8>, bytes: &[u8]) -> Result<(), NoMemory>
    ensures text { OnOk result (out.new.items ≡ out.old.items ++ bytes.now) }
    ensures grown { OnOk result (length out.new.items ≡ length out.old.items + length bytes.now) }
{
    match out.extend_from_slice(bytes) {
        Ok(()) => Ok(()),
        Err(_) => Err(NoMemory),
    }
}

/// Appends the number in decimal. Where there is no memory, some of it may have been appended.
pub fn push_decimal(out: &mut Vec<u8>, number: u64) -> Result<(), NoMemory>
    ensures { OnOk result (out.new.items ≡ out.old.items ++ decimal number) }
{
    let mut digits = Buffer::new();
    push_bytes(out, digits.format(number).as_bytes())
}

/// Appends the number in decimal, with `-` before one below 0.
pub(crate) fn push_number(out: &mut Vec<u8>, number: i64) -> Result<(), NoMemory>
    ensures { OnOk result (out.new.items ≡ out.old.items ++ signed_decimal number) }
{
    let mut digits = Buffer::new();
    push_bytes(out, digits.format(number).as_bytes())
}

/// Appends the name of the variable of this level.
pub(crate) fn push_name(out: &mut Vec<u8>, level: u64) -> Result<(), NoMemory>
    requires { level + 1 < 2 ^ 64 }
    ensures text { OnOk result (out.new.items ≡ out.old.items ++ name_text level) }
    ensures grown { OnOk result (length out.old.items + 1 ≤ length out.new.items) }
{
    push_bytes(out, b"x")?;
    push_decimal(out, level + 1)
}

/// Appends the text with a `\` before each `"` and each `\`.
fn push_escaped(out: &mut Vec<u8>, text: &[u8]) -> Result<(), NoMemory>
    ensures { OnOk result (out.new.items ≡ out.old.items ++ escaped text.now) }
{
    for byte in text {
        if *byte == b'"' || *byte == b'\\' {
            push_bytes(out, b"\\")?;
        }
        push_bytes(out, &[*byte])?;
    }
    Ok(())
}

/// Appends the text as a string.
pub(crate) fn push_quoted(out: &mut Vec<u8>, text: &[u8]) -> Result<(), NoMemory>
    ensures { OnOk result (out.new.items ≡ out.old.items ++ quoted text.now) }
{
    push_bytes(out, b"\"")?;
    push_escaped(out, text)?;
    push_bytes(out, b"\"")
}
