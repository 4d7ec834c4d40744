//! Names, strings, numbers and values.

ghost use Rattle.std.specs.Prelude.{◌≡◌, ◌++◌, decimal, OnOk};
ghost use Rattle.std.specs.List.{flat_map};
ghost use Rattle.mojom_print.specs.Words.{name_text, string_byte, string_text, value_text, ordinal_text, assigned_text, indent};

use mojom_ast::{Name, Number, Value};
use std::alloc::AllocError;

/// Adds the text at the end. The error is want of memory; then no promise is made of `out`.
pub fn push_text(out: &mut Vec<u8>, text: &str) -> Result<(), AllocError>
    ensures { OnOk result (out.new.items ≡ out.old.items ++ text.now) }
{
    out.extend_from_slice(text.as_bytes())
}

/// Writes two blanks for each definition around.
pub fn push_indent(out: &mut Vec<u8>, depth: usize) -> Result<(), AllocError>
    ensures { OnOk result (out.new.items ≡ out.old.items ++ indent depth) }
{
    for _level in 0..depth {
        push_text(out, "  ")?;
    }
    Ok(())
}

/// Adds the number at the end, in decimal. The error is as of `push_text`.
pub fn push_number(out: &mut Vec<u8>, number: u64) -> Result<(), AllocError>
    ensures { OnOk result (out.new.items ≡ out.old.items ++ decimal number) }
{
    let text = format!(in *out.allocator(); "{number}")?;
    push_text(out, text.as_str())
}

/// Writes a name, with dots between its parts.
#[tactic(auto, unfolding(crate::specs::Words::name_text))]
pub fn push_name(out: &mut Vec<u8>, name: &Name) -> Result<(), AllocError>
    ensures { OnOk result (out.new.items ≡ out.old.items ++ name_text name.now) }
{
    if let [first, rest @ ..] = name.parts.as_slice() {
        push_text(out, first.text.as_str())?;
        for part in rest {
            push_text(out, ".")?;
            push_text(out, part.text.as_str())?;
        }
    }
    Ok(())
}

/// Writes a byte of a string, by its escape where it has one.
#[tactic(auto, unfolding(crate::specs::Words::string_byte))]
fn push_string_byte(out: &mut Vec<u8>, byte: u8) -> Result<(), AllocError>
    ensures { OnOk result (out.new.items ≡ out.old.items ++ string_byte byte) }
{
    match byte {
        b'"' => push_text(out, "\\\""),
        b'\\' => push_text(out, "\\\\"),
        b'\n' => push_text(out, "\\n"),
        b'\t' => push_text(out, "\\t"),
        _ => Ok(out.push(byte)?),
    }
}

/// Adds the bytes at the end as a string of a printed file: between quotes, with a quote, a backslash,
/// a line feed and a tab by their escapes. The error is as of `push_text`.
#[tactic(auto, unfolding(crate::specs::Words::string_text))]
pub fn push_string(out: &mut Vec<u8>, bytes: &[u8]) -> Result<(), AllocError>
    ensures { OnOk result (out.new.items ≡ out.old.items ++ string_text bytes.now) }
{
    push_text(out, "\"")?;
    for byte in bytes {
        push_string_byte(out, *byte)?;
    }
    push_text(out, "\"")
}

/// Writes a value.
pub fn push_value(out: &mut Vec<u8>, value: &Value) -> Result<(), AllocError>
    ensures { OnOk result (out.new.items ≡ out.old.items ++ value_text value.now) }
{
    match value {
        Value::String(string) => push_string(out, string.bytes.as_slice()),
        Value::Bool { value, .. } => push_text(out, if *value { "true" } else { "false" }),
        Value::Number {
            negative,
            magnitude,
            ..
        } => {
            if *negative {
                push_text(out, "-")?;
            }
            push_number(out, *magnitude)
        }
        Value::Name(name) => push_name(out, name),
    }
}

/// Writes an ordinal, where there is one.
pub fn push_ordinal(out: &mut Vec<u8>, ordinal: Option<Number>) -> Result<(), AllocError>
    ensures { OnOk result (out.new.items ≡ out.old.items ++ ordinal_text ordinal) }
{
    if let Some(number) = ordinal {
        push_text(out, "@")?;
        push_number(out, number.value)?;
    }
    Ok(())
}

/// Writes what is assigned, where anything is.
pub fn push_assigned(out: &mut Vec<u8>, value: &Option<Value>) -> Result<(), AllocError>
    ensures { OnOk result (out.new.items ≡ out.old.items ++ assigned_text value.now) }
{
    if let Some(value) = value {
        push_text(out, " = ")?;
        push_value(out, value)?;
    }
    Ok(())
}
