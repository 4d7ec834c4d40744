//! Messages worked by hand: the bytes that an encoder in another language makes of a value of each kind, of
//! numbers that are null, and of a header with a moment, are those of the definitions.
#![tactic(auto)]

ghost use Rattle.std.specs.Prelude.{◌≡◌, negsuc, Some};
ghost use Rattle.mj_schema.specs.declared.schema.Schema.{Schema};
ghost use Rattle.wire_model.specs.Absent.{absent_values};
ghost use Rattle.wire_model.specs.Message.{IsHead, message, moment_read, payload_start};
ghost use Rattle.wire_model.specs.Tight.{IsEncodable, MAX_DEPTH, MAX_PAYLOAD_BYTES, payload_of};
ghost use Rattle.worked_messages.specs.Worked.{
  Given,
  fields,
  bytes,
  head,
  whole,
  flagged_fields,
  flagged_bytes,
  timed_head,
  timed_whole,
  newer_whole,
  later_rows,
  absent_fields,
};

/// There is a schema with the rows of the worked examples, a struct with a field of each kind among them: this is
/// a law and does nothing.
pub fn worked_schema()
    ensures { (schema : Schema) × Given schema }
{}

/// With such a schema the worked value is encodable, and its bytes are those that an encoder in another
/// language makes of it: this is a law and does nothing.
pub fn worked_value()
    ensures { (schema : Schema) → Given schema → IsEncodable schema 0 fields 3 2 × (payload_of schema 0 fields ≡ bytes) }
{}

/// Its message, with a head and two ids, is the whole message that the other encoder makes: this is a
/// law and does nothing.
pub fn worked_message()
    ensures { IsHead head × (message head bytes ≡ whole) }
{}

/// So are the bytes of a value with numbers that are null, whose flags are bits of its first byte: this is a law
/// and does nothing.
pub fn worked_flags()
    ensures { (schema : Schema) → Given schema
        → IsEncodable schema 1 flagged_fields 0 0 × (payload_of schema 1 flagged_fields ≡ flagged_bytes) }
{}

/// So is the message of that value with a moment, in a header of version 3: this is a law and does nothing.
pub fn worked_moment()
    ensures { IsHead timed_head × (message timed_head flagged_bytes ≡ timed_whole) }
{}

/// A header of a version that isn't known yet has its moment at the same place, and its payload where the pointer
/// leads: this is a law and does nothing.
pub fn worked_newer()
    ensures { (moment_read newer_whole ≡ Some (negsuc 1)) × (payload_start newer_whole ≡ 64) }
{}

/// A payload has 67,108,864 bytes at most, and 200 objects may stand one behind the other: this is a law and does
/// nothing.
pub fn worked_limits()
    ensures { (MAX_PAYLOAD_BYTES ≡ 67108864) × (MAX_DEPTH ≡ 200) }
{}

/// A number, a bool and an enum that may be null are null where a version lacks them; a number that may not is 0,
/// and an enum without a default its first member where none is 0: this is a law and does nothing.
pub fn worked_absent()
    ensures { (schema : Schema) → Given schema → absent_values schema later_rows ≡ absent_fields }
{}
