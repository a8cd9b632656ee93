// Bytes, numbers and names. A name is bare where it is a lower word, and in quotes else, however it was written: so equal
// names have one text.
ghost use Rattle.std.specs.Prelude.{◌≡◌, ◌++◌, OnOk, IfOk, decimal};
ghost use Rattle.std.specs.List.{list_all};
ghost use Rattle.inst_logic.specs.Printing as printing;
ghost use Rattle.inst_logic.specs.Printing.{escaped, escaped_all, name_text};

use inst_logic::{ByteList, Memory, Name};
use itoa::Buffer;
use std::alloc::Global;

/// Puts the bytes at the end, as they are.
pub fn push_bytes(text: &mut Vec<u8>, bytes: &[u8]) -> Result<(), Memory>
    ensures { OnOk result (text.new.items ≡ text.old.items ++ bytes.now) }
{
    text.extend_from_slice(bytes)?;
    Ok(())
}

/// Puts the number at the end, in decimal.
pub fn push_number(text: &mut Vec<u8>, n: usize) -> Result<(), Memory>
    ensures { OnOk result (text.new.items ≡ text.old.items ++ decimal n) }
{
    let mut digits = Buffer::new();
    text.extend_from_slice(digits.format(n).as_bytes())?;
    Ok(())
}

fn is_lower(byte: u8) -> bool
    ensures { result ≡ printing.is_lower byte }
{
    b'a' <= byte && byte <= b'z'
}

fn is_word_byte(byte: u8) -> bool
    ensures { result ≡ printing.is_word_byte byte }
{
    is_lower(byte) || b'A' <= byte && byte <= b'Z' || b'0' <= byte && byte <= b'9' || byte == b'_'
}

fn are_word_bytes(bytes: &[u8]) -> bool
    ensures { result ≡ list_all printing.is_word_byte bytes.now }
{
    for byte in bytes {
        if !is_word_byte(*byte) {
            return false;
        }
    }
    true
}

fn is_lower_word(name: &[u8]) -> bool
    ensures { result ≡ printing.is_lower_word name.now }
{
    match name {
        [] => false,
        [first, rest @ ..] => is_lower(*first) && are_word_bytes(rest),
    }
}

// The byte, behind a `\` where it is `'` or `\`.
fn push_escaped(text: &mut Vec<u8>, byte: u8) -> Result<(), Memory>
    ensures { OnOk result (text.new.items ≡ text.old.items ++ escaped byte) }
{
    if byte == b'\'' || byte == b'\\' {
        return push_bytes(text, &[b'\\', byte]);
    }
    push_bytes(text, &[byte])
}

fn push_all_escaped(text: &mut Vec<u8>, name: &[u8]) -> Result<(), Memory>
    ensures { OnOk result (text.new.items ≡ text.old.items ++ escaped_all name.now) }
{
    for byte in name {
        push_escaped(text, *byte)?;
    }
    Ok(())
}

/// Puts the name at the end: bare where it is a lower word, else in quotes, with `\` before each `'` and `\`.
pub fn push_name(text: &mut Vec<u8>, name: &[u8]) -> Result<(), Memory>
    ensures { OnOk result (text.new.items ≡ text.old.items ++ name_text name.now) }
{
    if is_lower_word(name) {
        return push_bytes(text, name);
    }
    push_bytes(text, b"'")?;
    push_all_escaped(text, name)?;
    push_bytes(text, b"'")
}

/// The name, bare or in quotes.
pub fn name_text(alloc: Global, name: &Name) -> Result<ByteList, Memory>
    ensures { IfOk result (λ text. text ≡ name_text name.now) }
{
    let mut text = Vec::new(alloc);
    push_name(&mut text, name.bytes())?;
    Ok(ByteList::from(text))
}
