//! The view of a message.

ghost use Rattle.std.specs.Prelude.{◌≡◌, false};
ghost use Rattle.mj_schema.specs.KindTrees.{StructKind};
ghost use Rattle.wire_model.specs.Expected.{message_value};
ghost use Rattle.wire_view.specs.Views.{tree_of, kind_of, schema_of};

use crate::view::View;
use message_validator::Checked;
use mj_base::limits::MAX_DEPTH;
use schema_rows::find_struct;

/// The parameters of a message that was checked, a struct.
pub fn root<'a>(checked: &Checked<'a>) -> View<'a>
    ensures value { tree_of result ≡ (message_value checked.now.schema.now checked.now.bytes.now checked.now.number).value }
    ensures kind { kind_of result ≡ StructKind checked.now.number false }
    ensures schema { schema_of result ≡ checked.now.schema.now }
{
    checked.stands();
    match find_struct(checked.schema, checked.number) {
        Some(row) => View::of_struct(
            checked.schema,
            checked.bytes,
            checked.start,
            MAX_DEPTH - 1,
            checked.number,
            row,
        ),
        // A message that was checked is for a struct of the schema.
        None => unreachable!(),
    }
}
