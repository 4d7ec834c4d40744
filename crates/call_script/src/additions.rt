//! What a line adds to a script.

ghost use Rattle.std.specs.Prelude.{◌≡◌, ◌<◌, ◌^◌, true};
ghost use Rattle.script_forms.specs.Forms.{Auto, IsForm};
ghost use Rattle.script_words.specs.Letters.{is_method_word};
ghost use Rattle.script_forms.specs.Views.{form_view};
ghost use Rattle.call_script.specs.steps.Interfaces.{IsIndexed};
ghost use Rattle.call_script.specs.steps.Commands.{Replies, Parts};

use crate::commands::{Stop, said_command, value_of};
use crate::indexed_schema::IndexedSchema;
use crate::name_table::{NameTable, Scope};
use crate::script::{AutoReply, Command, Line, NameId};
use crate::script_error::LineRefusal;
use crate::targets::message_named;
use mj_base::SeqId;
use script_forms::Form;
use std::alloc::Global;
use wire_model::MessageSide;

/// What a line adds to a script.
#[derive(Drop)]
pub(crate) enum Part {
    Line(Line),
    Reply(AutoReply),
}

/// The automatic reply of a sequence to a method.
fn reply_of(
    alloc: Global,
    indexed: &IndexedSchema,
    seq: u32,
    method: &[u8],
    value: &[u8],
) -> Result<AutoReply, Stop>
    requires indexed { IsIndexed indexed.now }
    requires method { is_method_word method.now ≡ true }
    ensures { Replies indexed.now.schema.now (Auto seq method.now value.now) result }
{
    let Some((target, number)) = message_named(indexed, MessageSide::Response, method) else {
        return Err(Stop::Refused(LineRefusal::UnknownName));
    };
    let prepared = value_of(alloc, indexed.schema, target, number, value)?;
    if prepared.handles > 0 {
        return Err(Stop::Refused(LineRefusal::BadValue));
    }
    if !prepared.endpoints.is_empty() {
        return Err(Stop::Refused(LineRefusal::BadValue));
    }
    Ok(AutoReply {
        seq: SeqId(seq),
        prepared,
    })
}

/// What the line of this number and form adds. Its own names are set behind the first `count` of the
/// table, and only those are looked up.
pub(crate) fn part_of(
    alloc: Global,
    indexed: &IndexedSchema,
    table: &NameTable,
    count: usize,
    number: u32,
    form: &Form,
) -> Result<Part, Stop>
    requires indexed { IsIndexed indexed.now }
    requires sound { IsForm (form_view form.now) }
    requires room { count < 2 ^ 63 }
    ensures { Parts indexed.now.schema.now table.now count number (form_view form.now) result }
{
    match form {
        Form::Join(seq, other, _, _) => Ok(Part::Line(Line {
            number,
            seq: SeqId(*seq),
            command: Command::Join(SeqId(*other), NameId(count), NameId(count + 1)),
        })),
        Form::Auto(seq, method, value) => {
            let reply = reply_of(alloc, indexed, *seq, *method, *value)?;
            Ok(Part::Reply(reply))
        }
        Form::Of(seq, said) => {
            let scope = Scope {
                table,
                count,
                seq: *seq,
            };
            let command = said_command(alloc, indexed, &scope, said)?;
            Ok(Part::Line(Line {
                number,
                seq: SeqId(*seq),
                command,
            }))
        }
    }
}
