//! Words of lines.

ghost use Rattle.std.specs.Prelude.{◌≡◌, ◌∷◌, [], ◌++◌, codes, decimal, OnOk};
ghost use Rattle.std.specs.Fmt.{signed_decimal};
ghost use Rattle.schema_text.specs.Listing.{line, extensible_word, value_text};

use mj_base::FullName;
use mj_schema::Literal;
use mojom_print::{push_number, push_string, push_text};
use std::alloc::AllocError;

/// Writes a blank and a word.
pub fn push_word(out: &mut Vec<u8>, word: &str) -> Result<(), AllocError>
    ensures { OnOk result (out.new.items ≡ out.old.items ++ (codes " " ++ word.now)) }
{
    push_text(out, " ")?;
    push_text(out, word)
}

/// Writes a blank and a full name.
pub fn push_name_word(out: &mut Vec<u8>, name: &FullName) -> Result<(), AllocError>
    ensures { OnOk result (out.new.items ≡ out.old.items ++ (codes " " ++ name.now)) }
{
    push_text(out, " ")?;
    name.push_to(out)
}

/// Writes a blank and a number in decimal.
pub fn push_number_word(out: &mut Vec<u8>, number: u32) -> Result<(), AllocError>
    ensures { OnOk result (out.new.items ≡ out.old.items ++ (codes " " ++ decimal number)) }
{
    push_text(out, " ")?;
    push_number(out, u64::from(number))
}

/// Writes a number in decimal, with its sign where it is negative.
pub fn push_signed(out: &mut Vec<u8>, number: i128) -> Result<(), AllocError>
    ensures { OnOk result (out.new.items ≡ out.old.items ++ signed_decimal number) }
{
    let text = format!(in *out.allocator(); "{number}")?;
    push_text(out, text.as_str())
}

/// Writes a value.
pub fn push_value(out: &mut Vec<u8>, value: &Literal) -> Result<(), AllocError>
    ensures { OnOk result (out.new.items ≡ out.old.items ++ value_text value.now) }
{
    match value {
        Literal::Bool(value) => push_text(out, if *value { "true" } else { "false" }),
        Literal::Whole(number) => push_signed(out, *number),
        Literal::Text(bytes) => push_string(out, bytes.as_slice()),
    }
}

/// Writes the line of what may be extensible.
pub fn push_heading(
    out: &mut Vec<u8>,
    sort: &str,
    name: &FullName,
    extensible: bool,
) -> Result<(), AllocError>
    ensures { OnOk result (out.new.items ≡ out.old.items ++ line (sort.now ∷ name.now ∷ extensible_word extensible)) }
{
    push_text(out, sort)?;
    push_name_word(out, name)?;
    if extensible {
        push_word(out, "extensible")?;
    }
    push_text(out, "\n")
}
