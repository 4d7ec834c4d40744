//! Which values the basic kinds take.

ghost use Rattle.std.specs.Prelude.{◌≡◌, ◌<◌, ◌^◌, [], ◌∷◌, OnOk};
ghost use Rattle.std.specs.Option.{option_map};
ghost use Rattle.mojom_files.specs.Refusals.{best_of};
ghost use Rattle.const_meanings.specs.Known.{known_view};
ghost use Rattle.const_eval.specs.Kinds.{range_of, is_within, wrong_literal, refused_outside, refused_uint32, refused_number, refused_value};
ghost use Rattle.const_eval.specs.Refused.{of_known};

use const_meanings::KnownView;
use mj_base::Text;
use mojom_ast::Identifier;
use mojom_files::{Basic, Cause, NamedCause, Refusal, keep};
use std::alloc::{AllocError, Global};

/// Numbers from the least to the greatest.
#[derive(Clone, Copy)]
pub struct Range {
    pub least: i128,
    pub greatest: i128,
}

/// The numbers of an integer kind; none exactly of a kind that is no integer.
fn range_of(kind: Basic) -> Option<Range>
    ensures { result ≡ range_of kind }
{
    let (least, greatest) = match kind {
        Basic::Int8 => (i8::MIN as i128, i8::MAX as i128),
        Basic::Int16 => (i16::MIN as i128, i16::MAX as i128),
        Basic::Int32 => (i32::MIN as i128, i32::MAX as i128),
        Basic::Int64 => (i64::MIN as i128, i64::MAX as i128),
        Basic::Uint8 => (0, u8::MAX as i128),
        Basic::Uint16 => (0, u16::MAX as i128),
        Basic::Uint32 => (0, u32::MAX as i128),
        Basic::Uint64 => (0, u64::MAX as i128),
        Basic::Bool | Basic::Text | Basic::Float | Basic::Double => return None,
    };
    Some(Range { least, greatest })
}

/// Whether a number is within a range.
fn is_within(range: Range, number: i128) -> bool
    ensures { result ≡ is_within range number }
{
    range.least <= number && number <= range.greatest
}

/// Refuses the value of what has this name.
pub fn refuse_literal(
    alloc: Global,
    best: &mut Option<Refusal>,
    file: u32,
    name: &Identifier,
) -> Result<(), AllocError>
    ensures { OnOk result (best.new ≡ best_of best.old (wrong_literal file name.now ∷ [])) }
{
    let text = Text::from_str(alloc, name.text.as_str())?;
    keep(
        best,
        Refusal {
            file,
            at: name.span.start,
            cause: Cause::named(NamedCause::WrongLiteral, text),
        },
    );
    Ok(())
}

/// Tests a number of a kind of this range.
fn check_within(
    best: &mut Option<Refusal>,
    file: u32,
    at: u64,
    kind: Basic,
    number: i128,
    range: Range,
)
    ensures { best.new ≡ best_of best.old (refused_outside file at kind number range) }
{
    if !is_within(range, number) {
        let cause = Cause::out_of_range(kind, number);
        keep(best, Refusal { file, at, cause });
    }
}

/// Tests an ordinal or a length, which are numbers of `uint32`.
pub fn check_uint32(best: &mut Option<Refusal>, file: u32, at: u64, number: u128)
    requires { number < 2 ^ 127 }
    ensures { best.new ≡ best_of best.old (refused_uint32 file at number) }
{
    let range = Range {
        least: 0,
        greatest: u32::MAX as i128,
    };
    check_within(best, file, at, Basic::Uint32, number as i128, range);
}

/// Tests a number as one of a basic kind, for what has this name.
pub fn check_number(
    alloc: Global,
    best: &mut Option<Refusal>,
    file: u32,
    name: &Identifier,
    at: u64,
    kind: Basic,
    number: i128,
) -> Result<(), AllocError>
    ensures { OnOk result (best.new ≡ best_of best.old (refused_number file name.now at kind number)) }
{
    let Some(range) = range_of(kind) else {
        return refuse_literal(alloc, best, file, name);
    };
    check_within(best, file, at, kind, number, range);
    Ok(())
}

/// Tests a value as one of a basic kind, for what has this name.
pub fn check_value(
    alloc: Global,
    best: &mut Option<Refusal>,
    file: u32,
    name: &Identifier,
    at: u64,
    kind: Basic,
    value: KnownView<'_>,
) -> Result<(), AllocError>
    ensures { OnOk result (best.new ≡ best_of best.old (refused_value file name.now at kind (known_view value.entry))) }
{
    match (kind, value) {
        (Basic::Bool, KnownView::Bool(_)) | (Basic::Text, KnownView::Text(_)) => Ok(()),
        (_, KnownView::Number(number)) => check_number(alloc, best, file, name, at, kind, number),
        _ => refuse_literal(alloc, best, file, name),
    }
}

/// Tests what may have a value as one of a basic kind, for what has this name: nothing is tested where
/// there is none.
pub fn check_known(
    alloc: Global,
    best: &mut Option<Refusal>,
    file: u32,
    name: &Identifier,
    at: u64,
    kind: Basic,
    known: Option<KnownView<'_>>,
) -> Result<(), AllocError>
    ensures { OnOk result (best.new ≡ best_of best.old (of_known (refused_value file name.now at kind) (option_map known_view known.entry))) }
{
    match known {
        Some(value) => check_value(alloc, best, file, name, at, kind, value),
        None => Ok(()),
    }
}
