//! The text of a refused name, constant or kind.

ghost use Rattle.std.specs.Prelude.{◌≡◌, ◌++◌, codes, decimal, OnOk};
ghost use Rattle.std.specs.Fmt.{signed_decimal};
ghost use Rattle.mojom_files.specs.Causes.{named};
ghost use Rattle.mojo_tool.specs.LanguageCauses.{language_text, names_text};

use mj_base::Text;
use mojom_files::{Cause, CauseParts, NamedCause};
use mojom_print::{push_number, push_text};
use std::alloc::AllocError;

/// Writes a word and a name.
pub fn push_named(out: &mut Vec<u8>, word: &str, name: &str) -> Result<(), AllocError>
    ensures { OnOk result (out.new.items ≡ out.old.items ++ (word.now ++ name.now)) }
{
    push_text(out, word)?;
    push_text(out, name)
}

/// Writes names, with a blank before each.
fn push_names(out: &mut Vec<u8>, names: &[Text]) -> Result<(), AllocError>
    ensures { OnOk result (out.new.items ≡ out.old.items ++ names_text names.now) }
{
    for name in names {
        push_named(out, " ", name.as_str())?;
    }
    Ok(())
}

/// Writes a word and names.
fn push_list(out: &mut Vec<u8>, word: &str, names: &[Text]) -> Result<(), AllocError>
    ensures { OnOk result (out.new.items ≡ out.old.items ++ (word.now ++ names_text names.now)) }
{
    push_text(out, word)?;
    push_names(out, names)
}

/// Writes a word, a name and a number.
fn push_numbered(out: &mut Vec<u8>, word: &str, name: &str, number: u32) -> Result<(), AllocError>
    ensures { OnOk result (out.new.items ≡ out.old.items ++ (word.now ++ (name.now ++ (codes " " ++ decimal number)))) }
{
    push_named(out, word, name)?;
    push_text(out, " ")?;
    push_number(out, number as u64)
}

/// Writes a number in decimal, with its sign where it is negative.
pub fn push_signed(out: &mut Vec<u8>, number: i128) -> Result<(), AllocError>
    ensures { OnOk result (out.new.items ≡ out.old.items ++ signed_decimal number) }
{
    let text = format!(in *out.allocator(); "{number}")?;
    push_text(out, text.as_str())
}

/// Writes a word, the name of a kind and a number that isn't one of it.
fn push_range(out: &mut Vec<u8>, word: &str, kind: &str, number: i128) -> Result<(), AllocError>
    ensures { OnOk result (out.new.items ≡ out.old.items ++ (word.now ++ (kind.now ++ (codes " " ++ signed_decimal number)))) }
{
    push_named(out, word, kind)?;
    push_text(out, " ")?;
    push_signed(out, number)
}

/// Writes a cause that goes by a name, and what it tells.
fn push_cause_of_name(out: &mut Vec<u8>, cause: NamedCause, name: &str) -> Result<(), AllocError>
    ensures { OnOk result (out.new.items ≡ out.old.items ++ language_text (named cause name.now)) }
{
    match cause {
        NamedCause::DuplicateName => push_named(out, "DuplicateName ", name),
        NamedCause::UnknownName => push_named(out, "UnknownName ", name),
        NamedCause::WrongSort => push_named(out, "WrongSort ", name),
        NamedCause::CircularConst => push_named(out, "CircularConst ", name),
        NamedCause::WrongLiteral => push_named(out, "WrongLiteral ", name),
        NamedCause::TooManyFields => push_named(out, "TooManyFields ", name),
        NamedCause::EmptyEnum => push_named(out, "EmptyEnum ", name),
        NamedCause::DoubleDefault => push_named(out, "DoubleDefault ", name),
        NamedCause::FloatField => push_named(out, "FloatField ", name),
        NamedCause::BadMapKey => push_named(out, "BadMapKey ", name),
        NamedCause::NullableKey => push_named(out, "NullableKey ", name),
        NamedCause::BadNullable => push_named(out, "BadNullable ", name),
        NamedCause::ZeroLengthArray => push_named(out, "ZeroLengthArray ", name),
        NamedCause::OrdinalDouble(ordinal) => push_numbered(out, "OrdinalDouble ", name, ordinal),
        NamedCause::OrdinalGap(ordinal) => push_numbered(out, "OrdinalGap ", name, ordinal),
        NamedCause::VersionFalls { before, here } => {
            push_numbered(out, "VersionFalls ", name, before)?;
            push_text(out, " ")?;
            push_number(out, here as u64)
        }
        NamedCause::LateNotNullable => push_named(out, "LateNotNullable ", name),
    }
}

/// Writes a cause and what it tells.
pub fn push_cause(out: &mut Vec<u8>, cause: &Cause) -> Result<(), AllocError>
    ensures { OnOk result (out.new.items ≡ out.old.items ++ language_text cause.now) }
{
    match cause.parts() {
        CauseParts::NoFile(path) => {
            push_text(out, "NoFile ")?;
            out.extend_from_slice(path.as_slice())
        }
        CauseParts::CircularImport(names) => push_list(out, "CircularImport", names.as_slice()),
        CauseParts::OutOfRange { kind, value } => {
            push_range(out, "OutOfRange ", kind.name(), *value)
        }
        CauseParts::Named(cause, name) => push_cause_of_name(out, *cause, name.as_str()),
    }
}
