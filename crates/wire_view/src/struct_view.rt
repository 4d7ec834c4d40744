//! Views of structs.

ghost use Rattle.std.specs.Prelude.{IsTrue};
ghost use Rattle.wire_view.specs.Parts.{is_struct};
ghost use Rattle.wire_view.specs.Views.{kind_of};

use crate::absent::{absent_number, absent_string};
use crate::array_view::ArrayView;
use crate::cells::string_in;
use crate::numbers::number_at;
use crate::on::On;
use crate::places::Place;
use crate::sorted::array_in;
use crate::texts::Utf8;
use crate::view::View;

/// A view of a struct. As its type says so, no getter asks what it is of.
#[derive(Clone, Copy)]
pub struct StructView<'a> {
    view: View<'a>,
    ghost stands: { IsTrue (is_struct (kind_of view)) },
}

impl<'a> StructView<'a> {
    ghost use Rattle.std.specs.Prelude.{◌≡◌, true, option_and_then};
    ghost use Rattle.std.specs.Option.{option_map};
    ghost use Rattle.wire_view.specs.Parts.{part, number_of, text_of, held, kind_at, is_array, of_kind};
    ghost use Rattle.wire_view.specs.SortedViews.{only, struct_itself, struct_seen, array_seen};
    ghost use Rattle.wire_view.specs.Strings.{bytes_in};
    ghost use Rattle.wire_view.specs.Views.{schema_of};

    /// A view that is of a struct.
    #[inline(always)]
    fn new(view: View<'a>) -> StructView<'a>
        requires { is_struct (kind_of view) ≡ true }
        ensures { result.view ≡ view.entry }
    {
        StructView { view }
    }

    /// A view as that of a struct. None exactly where it is none.
    #[inline(always)]
    pub fn from_view(view: &View<'a>) -> Option<StructView<'a>>
        ensures { option_map struct_itself result ≡ only is_struct view.now }
    {
        match view.on {
            On::Struct(_) => Some(StructView::new(*view)),
            On::Array(_) => None,
            On::Map(_, _) => None,
            On::Union(_) => None,
        }
    }

    /// The view itself, with the getters for what is read seldom.
    #[inline(always)]
    pub fn as_view(&self) -> View<'a>
        ensures { result ≡ struct_itself self.now }
    {
        self.view
    }

    /// The number that a field is, as `View::number`.
    #[inline(always)]
    pub fn number(&self, i: u32) -> Option<i128>
        ensures { result ≡ option_and_then number_of (part (struct_seen self.now) i) }
    {
        match self.view.field_place(i) {
            Place::Slot { at, bit, kind } => number_at(self.view.bytes, at, bit, kind),
            Place::Absent(field) => absent_number(self.view.schema, field),
            Place::Null => None,
            Place::Nothing => None,
            // No field lies there.
            Place::Member { .. } => unreachable!(),
            Place::List { .. } => unreachable!(),
        }
    }

    /// The string that a field is, as `View::string`.
    #[inline(always)]
    pub fn string(&self, i: u32) -> Option<Utf8<'a>>
        ensures { option_map bytes_in result ≡ option_and_then text_of (part (struct_seen self.now) i) }
    {
        match self.view.field_place(i) {
            Place::Slot { at, bit, kind } => string_in(
                self.view.schema,
                self.view.bytes,
                at,
                bit,
                kind,
                self.view.left,
            ),
            Place::Absent(field) => absent_string(self.view.schema, field),
            Place::Null => None,
            Place::Nothing => None,
            // No field lies there.
            Place::Member { .. } => unreachable!(),
            Place::List { .. } => unreachable!(),
        }
    }

    /// The view of a field that is an array. None exactly where there is no such field, or it is null or
    /// of another kind.
    #[inline(always)]
    pub fn array(&self, i: u32) -> Option<ArrayView<'a>>
        ensures { option_map array_seen result ≡ option_and_then held (of_kind is_array
            (kind_at (schema_of (struct_itself self.now)) (kind_of (struct_itself self.now)) i) (part (struct_seen self.now) i)) }
    {
        match self.view.field_place(i) {
            Place::Slot { at, bit, kind } => array_in(
                self.view.schema,
                self.view.bytes,
                at,
                bit,
                kind,
                self.view.left,
            ),
            Place::Absent(_) => None,
            Place::Null => None,
            Place::Nothing => None,
            // No field lies there.
            Place::Member { .. } => unreachable!(),
            Place::List { .. } => unreachable!(),
        }
    }
}
