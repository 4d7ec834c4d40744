//! Views.

ghost use Rattle.std.specs.Prelude.{◌≡◌, ◌+◌, ℕ, length, IsTrue};
ghost use Rattle.mj_base.specs.Bytes.{number32};
ghost use Rattle.wire_model.specs.Marks.{visit, object_marks};
ghost use Rattle.wire_model.specs.Rows.{row_of};
ghost use Rattle.wire_model.specs.Values.{value, object_value};
ghost use Rattle.wire_view.specs.Known.{fields_of, known_of};
ghost use Rattle.wire_view.specs.Ons.{on_kind};
ghost use Rattle.wire_view.specs.Parts.{is_object};
ghost use Rattle.wire_view.specs.Readable.{are_readable};
ghost use Rattle.wire_view.specs.steps.Proper.{fields-prop};

use crate::absent::{absent_field, absent_number};
use crate::cells::{cell_at, slot_at};
use crate::known::known_in;
use crate::numbers::number_at;
use crate::objects::list_at;
use crate::on::On;
use crate::parts::Part;
use crate::places::{Place, field_at, list_bytes, slot_bytes, slot_size};
use crate::shapes::Shape;
use crate::texts::Utf8;
use mj_base::le32;
use mj_schema::{FieldRow, KindNode, Schema, StructRow};
use schema_rows::{has_value, kind_in};

/// A struct, an array, a map or a union of a message that was checked, at a byte place, where at most
/// `left` more levels of objects may be behind it. Of a struct it keeps the `fields`, and how many of them
/// its version has, so that no getter looks for them.
#[derive(Clone, Copy)]
pub struct View<'a> {
    pub(crate) schema: &'a Schema,
    pub(crate) bytes: &'a [u8],
    at: u64,
    pub(crate) left: u32,
    known: u32,
    fields: &'a [FieldRow],
    pub(crate) on: On<'a>,
    ghost readable: { IsTrue (are_readable (length bytes.now) (object_marks (visit left schema.now bytes.now) schema.now bytes.now at (on_kind on))) },
    ghost whole: { IsTrue (is_object (object_value (value left schema.now bytes.now) schema.now bytes.now at (on_kind on))) },
    ghost kept: { fields.now ≡ fields_of (row_of schema.now (on_kind on)) } by { fields-prop fields.now (fields_of (row_of schema.now (on_kind on))) },
    ghost counted: { known ≡ known_of (row_of schema.now (on_kind on)) (number32 bytes.now (at + 4)) },
}

impl<'a> View<'a> {
    ghost use Rattle.std.specs.Prelude.{◌≤◌, true, false, Some, None, slice_get, option_and_then, IfSome};
    ghost use Rattle.std.specs.Option.{option_copied, option_map};
    ghost use Rattle.mj_schema.specs.KindTrees.{kind_view, ArrayKind, StructKind};
    ghost use Rattle.mj_schema.specs.Versions.{is_table};
    ghost use Rattle.wire_model.specs.Marks.{content_marks, pointer_marks, found_union_marks};
    ghost use Rattle.wire_model.specs.Rows.{kind_in};
    ghost use Rattle.wire_model.specs.Slots.{element_bytes, element_slots};
    ghost use Rattle.wire_model.specs.Trees.{Items, Pairs, none, more};
    ghost use Rattle.wire_model.specs.Values.{slots_value, pointer_value, found_union_value};
    ghost use Rattle.readable_marks.specs.Readable.{AreReadable};
    ghost use Rattle.wire_view.specs.PartValues.{tree_in, object_in};
    ghost use Rattle.wire_view.specs.Parts.{part, how_many, number_of, version_of, text_of, held, item_of, tag_of, list_kind, kind_at, bytes_of_part};
    ghost use Rattle.wire_view.specs.Shapes.{HasShape};
    ghost use Rattle.wire_view.specs.Strings.{bytes_in};
    ghost use Rattle.wire_view.specs.Views.{tree_of, kind_of, schema_of, IsOf};
    ghost use Rattle.wire_view.specs.steps.Placed.{IsPlace, is_element, is_field};

    /// A view of an object at a place, which isn't null.
    #[inline(always)]
    pub(crate) fn standing(
        schema: &'a Schema,
        bytes: &'a [u8],
        at: u64,
        left: u32,
        on: On<'a>,
        fields: &'a [FieldRow],
        known: u32,
    ) -> View<'a>
        requires readable { AreReadable (length bytes.now) (object_marks (visit left schema.now bytes.now) schema.now bytes.now at (on_kind on)) }
        requires whole { is_object (object_value (value left schema.now bytes.now) schema.now bytes.now at (on_kind on)) ≡ true }
        requires row { fields.now ≡ fields_of (row_of schema.now (on_kind on)) }
        requires version { known ≡ known_of (row_of schema.now (on_kind on)) (number32 bytes.now (at + 4)) }
        ensures value { tree_of result ≡ object_value (value left schema.now bytes.now) schema.now bytes.now at (on_kind on.entry) }
        ensures kind { kind_of result ≡ on_kind on.entry }
        ensures schema { schema_of result ≡ schema.now }
    {
        View {
            schema,
            bytes,
            at,
            left,
            known,
            fields,
            on,
        }
    }

    /// A view of a struct at a place.
    #[inline(always)]
    pub(crate) fn of_struct(
        schema: &'a Schema,
        bytes: &'a [u8],
        at: u64,
        left: u32,
        number: u32,
        row: &'a StructRow,
    ) -> View<'a>
        requires found { Some row.now ≡ slice_get schema.now.structs number }
        requires rising { IsTrue (is_table row.now.versions) }
        requires readable { AreReadable (length bytes.now) (object_marks (visit left schema.now bytes.now) schema.now bytes.now at (StructKind number false)) }
        ensures value { tree_of result ≡ object_value (value left schema.now bytes.now) schema.now bytes.now at (StructKind number false) }
        ensures kind { kind_of result ≡ StructKind number false }
        ensures schema { schema_of result ≡ schema.now }
    {
        let version = le32(bytes, at + 4);
        let known = known_in(row.versions.as_slice(), version);
        View::standing(
            schema,
            bytes,
            at,
            left,
            On::Struct(number),
            row.fields.as_slice(),
            known,
        )
    }

    /// Where the field of an ordinal of a struct lies.
    #[inline(always)]
    pub(crate) fn field_place(&self, i: u32) -> Place<'a>
        requires { (number : ℕ) × (self.now.on ≡ On.Struct number) }
        ensures place { IsPlace (length self.now.bytes.now) (visit self.now.left self.now.schema.now self.now.bytes.now)
            (value self.now.left self.now.schema.now self.now.bytes.now) self.now.schema.now self.now.bytes.now
            (part (tree_of self.now) i) (kind_at self.now.schema.now (on_kind self.now.on) i) result }
        ensures own { IsTrue (is_field result) }
    {
        let base = self.at + 8;
        let known = self.known;
        match field_at(self.fields, i) {
            Some(field) => {
                if i < known {
                    if has_value(self.bytes, base, field.flag) {
                        Place::Slot {
                            at: base + u64::from(field.offset),
                            bit: field.bit,
                            kind: field.kind.node(),
                        }
                    } else {
                        Place::Null
                    }
                } else {
                    Place::Absent(field)
                }
            }
            None => Place::Nothing,
        }
    }

    /// Where the element of a number of an array of so many lies.
    #[inline(always)]
    pub(crate) fn element_place(&self, of: &'a KindNode, count: u32, i: u32) -> Place<'a>
        requires counted { count ≡ number32 self.now.bytes.now (self.now.at + 4) }
        requires within { self.now.at + 8 + element_bytes (kind_view of.now) (number32 self.now.bytes.now (self.now.at + 4)) ≤ length self.now.bytes.now }
        requires readable { AreReadable (length self.now.bytes.now)
            (content_marks (visit self.now.left self.now.schema.now self.now.bytes.now) self.now.schema.now self.now.bytes.now
            (self.now.at + 8) (kind_view of.now) (number32 self.now.bytes.now (self.now.at + 4))) }
        ensures place { IsPlace (length self.now.bytes.now) (visit self.now.left self.now.schema.now self.now.bytes.now)
            (value self.now.left self.now.schema.now self.now.bytes.now) self.now.schema.now self.now.bytes.now
            (part (Items (slots_value (value self.now.left self.now.schema.now self.now.bytes.now) self.now.schema.now self.now.bytes.now
            (self.now.at + 8) (element_slots (kind_view of.now) 0 (number32 self.now.bytes.now (self.now.at + 4))) none)) i)
            (Some (kind_view of.now)) result }
        ensures own { IsTrue (is_element result) }
    {
        let at = self.at;
        if i < count {
            let place = u64::from(i) * slot_size(of);
            Place::Slot {
                at: at + 8 + place / 8,
                bit: (place % 8) as u32,
                kind: of,
            }
        } else {
            Place::Nothing
        }
    }

    /// Where one of the two lists of a map lies.
    #[inline(always)]
    fn list_place(&self, key: &'a KindNode, one: &'a KindNode, i: u32) -> Place<'a>
        requires within { self.now.at + 24 ≤ length self.now.bytes.now }
        requires keys { AreReadable (length self.now.bytes.now)
            (pointer_marks (visit self.now.left self.now.schema.now self.now.bytes.now) self.now.bytes.now (self.now.at + 8)
            (ArrayKind (kind_view key.now) None false) false) }
        requires values { AreReadable (length self.now.bytes.now)
            (pointer_marks (visit self.now.left self.now.schema.now self.now.bytes.now) self.now.bytes.now (self.now.at + 16)
            (ArrayKind (kind_view one.now) None false) false) }
        ensures { IsPlace (length self.now.bytes.now) (visit self.now.left self.now.schema.now self.now.bytes.now)
            (value self.now.left self.now.schema.now self.now.bytes.now) self.now.schema.now self.now.bytes.now
            (part (Pairs
            (more (pointer_value (value self.now.left self.now.schema.now self.now.bytes.now) self.now.bytes.now (self.now.at + 8)
            (ArrayKind (kind_view key.now) None false))
            (more (pointer_value (value self.now.left self.now.schema.now self.now.bytes.now) self.now.bytes.now (self.now.at + 16)
            (ArrayKind (kind_view one.now) None false))
            none))) i)
            (list_kind (kind_view key.now) (kind_view one.now) i) result }
    {
        let at = self.at;
        if i == 0 {
            return Place::List {
                at: at + 8,
                of: key,
            };
        }
        if i == 1 {
            return Place::List {
                at: at + 16,
                of: one,
            };
        }
        Place::Nothing
    }

    /// Where what a union holds lies, which is a part by its tag alone.
    #[inline(always)]
    fn member_place(&self, number: u32, i: u32) -> Place<'a>
        requires within { self.now.at + 16 ≤ length self.now.bytes.now }
        requires readable { AreReadable (length self.now.bytes.now)
            (found_union_marks (visit self.now.left self.now.schema.now self.now.bytes.now) self.now.schema.now self.now.bytes.now self.now.at
            (slice_get self.now.schema.now.unions number)) }
        ensures { IsPlace (length self.now.bytes.now) (visit self.now.left self.now.schema.now self.now.bytes.now)
            (value self.now.left self.now.schema.now self.now.bytes.now) self.now.schema.now self.now.bytes.now
            (part (found_union_value (value self.now.left self.now.schema.now self.now.bytes.now) self.now.bytes.now self.now.at
            (slice_get self.now.schema.now.unions number)) i)
            (kind_in (slice_get self.now.schema.now.unions number) i) result }
    {
        let at = self.at;
        let tag = le32(self.bytes, at + 4);
        if tag == i {
            match kind_in(self.schema, number, tag) {
                Some(kind) => Place::Member {
                    at: at + 8,
                    kind: kind.node(),
                },
                None => Place::Nothing,
            }
        } else {
            Place::Nothing
        }
    }

    /// Where the part of a number lies.
    #[inline(always)]
    fn place(&self, i: u32) -> Place<'a>
        ensures { IsPlace (length self.now.bytes.now) (visit self.now.left self.now.schema.now self.now.bytes.now)
            (value self.now.left self.now.schema.now self.now.bytes.now) self.now.schema.now self.now.bytes.now
            (part (tree_of self.now) i) (kind_at self.now.schema.now (on_kind self.now.on) i) result }
    {
        match self.on {
            On::Struct(_) => self.field_place(i),
            On::Array(of) => {
                let count = le32(self.bytes, self.at + 4);
                self.element_place(of, count, i)
            }
            On::Map(key, one) => self.list_place(key, one, i),
            On::Union(number) => self.member_place(number, i),
        }
    }

    /// The part of a number: a struct's field by its ordinal, an array's element, a map's keys (0) and
    /// values (1), or what a union holds by its tag. None exactly where no part has that number.
    #[inline(always)]
    pub fn part(&self, i: u32) -> Option<Part<'a>>
        ensures value { option_map tree_in result ≡ part (tree_of self.now) i }
        ensures kind { IfSome (option_and_then object_in result) (IsOf (schema_of self.now) (kind_at (schema_of self.now) (kind_of self.now) i)) }
    {
        match self.place(i) {
            Place::Nothing => None,
            Place::Null => Some(Part::Null),
            Place::Absent(field) => Some(absent_field(self.schema, field)),
            Place::Slot { at, bit, kind } => Some(slot_at(
                self.schema,
                self.bytes,
                at,
                bit,
                kind,
                self.left,
            )),
            Place::Member { at, kind } => {
                Some(cell_at(self.schema, self.bytes, at, 0, kind, self.left))
            }
            Place::List { at, of } => Some(Part::Object(list_at(
                self.schema,
                self.bytes,
                at,
                of,
                self.left,
            ))),
        }
    }

    /// The number that a part is: a bool as 0 or 1, an integer, an enum, or an index. None exactly where
    /// there is no such part, or it is null or of another kind.
    #[inline(always)]
    pub fn number(&self, i: u32) -> Option<i128>
        ensures { result ≡ option_and_then number_of (part (tree_of self.now) i) }
    {
        match self.place(i) {
            Place::Slot { at, bit, kind } => number_at(self.bytes, at, bit, kind),
            Place::Member { at, kind } => {
                cell_at(self.schema, self.bytes, at, 0, kind, self.left).as_number()
            }
            Place::List { at, of } => {
                Part::Object(list_at(self.schema, self.bytes, at, of, self.left)).as_number()
            }
            Place::Absent(field) => absent_number(self.schema, field),
            Place::Null => None,
            Place::Nothing => None,
        }
    }

    /// The version of a part that is a remote. None exactly where there is no such part, or it is null or
    /// of another kind.
    #[inline(always)]
    pub fn version(&self, i: u32) -> Option<u32>
        ensures { result ≡ option_and_then version_of (part (tree_of self.now) i) }
    {
        match self.part(i) {
            Some(part) => part.as_version(),
            None => None,
        }
    }

    /// The text of a part that is a string, which takes a pass over its bytes. None exactly where there is
    /// no such part, or it is null or of another kind.
    #[inline(always)]
    pub fn text(&self, i: u32) -> Option<&'a str>
        ensures { option_copied result ≡ option_and_then text_of (part (tree_of self.now) i) }
    {
        match self.part(i) {
            Some(part) => part.as_text(),
            None => None,
        }
    }

    /// The string of a part, where it lies. None exactly where there is no such part, or it is null or of
    /// another kind.
    #[inline(always)]
    pub fn string(&self, i: u32) -> Option<Utf8<'a>>
        ensures { option_map bytes_in result ≡ option_and_then text_of (part (tree_of self.now) i) }
    {
        match self.part(i) {
            Some(part) => part.as_string(),
            None => None,
        }
    }

    /// The bytes of a part that is an array of uint8. None exactly where there is no such part, or it is
    /// null or of another kind.
    pub fn bytes(&self, i: u32) -> Option<&'a [u8]>
        ensures { option_copied result ≡ bytes_of_part (kind_at (schema_of self.now) (kind_of self.now) i) (part (tree_of self.now) i) }
    {
        match self.place(i) {
            Place::Slot { at, kind, .. } => slot_bytes(self.bytes, at, kind),
            Place::Member { at, kind } => slot_bytes(self.bytes, at, kind),
            Place::List { at, of } => list_bytes(self.bytes, at, of),
            Place::Nothing => None,
            Place::Null => None,
            Place::Absent(_) => None,
        }
    }

    /// The view of a part that is a struct, an array, a map or a union. None exactly where there is no
    /// such part, or it is null or of another kind.
    #[inline(always)]
    pub fn child(&self, i: u32) -> Option<View<'a>>
        ensures value { option_map tree_of result ≡ option_and_then held (part (tree_of self.now) i) }
        ensures kind { IfSome result (IsOf (schema_of self.now) (kind_at (schema_of self.now) (kind_of self.now) i)) }
    {
        match self.place(i) {
            Place::Slot { at, bit, kind } => {
                slot_at(self.schema, self.bytes, at, bit, kind, self.left).as_object()
            }
            Place::Member { at, kind } => {
                cell_at(self.schema, self.bytes, at, 0, kind, self.left).as_object()
            }
            Place::List { at, of } => { Some(list_at(self.schema, self.bytes, at, of, self.left)) }
            Place::Absent(_) => None,
            Place::Null => None,
            Place::Nothing => None,
        }
    }

    /// The view of an element of an array; none where this is no array, too.
    fn item(&self, j: u32) -> Option<View<'a>>
        ensures value { option_map tree_of result ≡ item_of (tree_of self.now) j }
        ensures kind { IfSome result (IsOf (schema_of self.now) (kind_at (schema_of self.now) (kind_of self.now) j)) }
    {
        match self.shape() {
            Shape::Array => self.child(j),
            Shape::Struct => None,
            Shape::Map => None,
            Shape::Union => None,
        }
    }

    /// The view of an element of the array that a part is. None exactly where no part of that number is an
    /// array, or it has no such element, or the element is null or no struct, array, map or union.
    pub fn element(&self, i: u32, j: u32) -> Option<View<'a>>
        ensures value { option_map tree_of result ≡ option_and_then (λ array. item_of array j) (part (tree_of self.now) i) }
        ensures kind { IfSome result (IsOf (schema_of self.now)
            (option_and_then (λ of. kind_at (schema_of self.now) of j) (kind_at (schema_of self.now) (kind_of self.now) i))) }
    {
        match self.child(i) {
            Some(array) => array.item(j),
            None => None,
        }
    }

    /// How many parts there are: all fields that the schema knows, of a union the one that it holds, or
    /// none where it lacks the tag.
    #[inline(always)]
    pub fn len(&self) -> u32
        ensures { result ≡ how_many (tree_of self.now) }
    {
        match self.on {
            On::Struct(_) => self.fields.len() as u32,
            On::Array(_) => le32(self.bytes, self.at + 4),
            On::Map(_, _) => 2,
            On::Union(number) => self.members(number),
        }
    }

    /// How many parts a union has.
    fn members(&self, number: u32) -> u32
        requires { self.now.at + 16 ≤ length self.now.bytes.now }
        ensures { result ≡ how_many (found_union_value (value self.now.left self.now.schema.now self.now.bytes.now) self.now.bytes.now self.now.at
            (slice_get self.now.schema.now.unions number)) }
    {
        match kind_in(self.schema, number, le32(self.bytes, self.at + 4)) {
            Some(_) => 1,
            None => 0,
        }
    }

    /// The tag of a union. None exactly where this is no union.
    #[inline(always)]
    pub fn tag(&self) -> Option<u32>
        ensures { result ≡ tag_of (tree_of self.now) }
    {
        match self.on {
            On::Union(_) => Some(le32(self.bytes, self.at + 4)),
            On::Struct(_) => None,
            On::Array(_) => None,
            On::Map(_, _) => None,
        }
    }

    /// What this is a view of.
    #[inline(always)]
    pub fn shape(&self) -> Shape
        ensures { HasShape result (tree_of self.now) }
    {
        match self.on {
            On::Struct(_) => Shape::Struct,
            On::Array(_) => Shape::Array,
            On::Map(_, _) => Shape::Map,
            On::Union(_) => Shape::Union,
        }
    }
}
