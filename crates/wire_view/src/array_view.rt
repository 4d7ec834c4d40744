//! Views of arrays.

ghost use Rattle.std.specs.Prelude.{◌≡◌, IsTrue};
ghost use Rattle.wire_view.specs.Parts.{how_many, is_array};
ghost use Rattle.wire_view.specs.Views.{kind_of, tree_of};

use crate::numbers::number_at;
use crate::on::On;
use crate::places::Place;
use crate::sorted::struct_in;
use crate::struct_view::StructView;
use crate::view::View;
use mj_schema::KindNode;

/// A view of an array, which keeps how many elements that has.
#[derive(Clone, Copy)]
pub struct ArrayView<'a> {
    view: View<'a>,
    count: u32,
    ghost stands: { IsTrue (is_array (kind_of view)) },
    ghost counted: { count ≡ how_many (tree_of view) },
}

impl<'a> ArrayView<'a> {
    ghost use Rattle.std.specs.Prelude.{true, length, option_and_then};
    ghost use Rattle.std.specs.Option.{option_map};
    ghost use Rattle.wire_model.specs.Marks.{visit};
    ghost use Rattle.wire_model.specs.Values.{value};
    ghost use Rattle.wire_view.specs.Ons.{on_kind};
    ghost use Rattle.wire_view.specs.Parts.{part, number_of, held, kind_at, is_struct, of_kind};
    ghost use Rattle.wire_view.specs.SortedViews.{only, array_itself, array_seen, struct_seen};
    ghost use Rattle.wire_view.specs.Views.{schema_of};
    ghost use Rattle.wire_view.specs.steps.Placed.{IsPlace, is_element};

    /// A view that is of an array of so many elements.
    #[inline(always)]
    fn new(view: View<'a>, count: u32) -> ArrayView<'a>
        requires stands { is_array (kind_of view) ≡ true }
        requires counted { count ≡ how_many (tree_of view) }
        ensures { result.view ≡ view.entry }
    {
        ArrayView { view, count }
    }

    /// A view as that of an array. None exactly where it is none.
    #[inline(always)]
    pub fn from_view(view: &View<'a>) -> Option<ArrayView<'a>>
        ensures { option_map array_itself result ≡ only is_array view.now }
    {
        match view.on {
            On::Array(_) => Some(ArrayView::new(*view, view.len())),
            On::Struct(_) => None,
            On::Map(_, _) => None,
            On::Union(_) => None,
        }
    }

    /// The view itself, with the getters for what is read seldom.
    #[inline(always)]
    pub fn as_view(&self) -> View<'a>
        ensures { result ≡ array_itself self.now }
    {
        self.view
    }

    /// How many elements there are.
    #[inline(always)]
    pub fn len(&self) -> u32
        ensures { result ≡ how_many (array_seen self.now) }
    {
        self.count
    }

    /// Where an element lies.
    #[inline(always)]
    fn place(&self, j: u32) -> Place<'a>
        ensures place { IsPlace (length self.now.view.bytes.now) (visit self.now.view.left self.now.view.schema.now self.now.view.bytes.now)
            (value self.now.view.left self.now.view.schema.now self.now.view.bytes.now) self.now.view.schema.now self.now.view.bytes.now
            (part (tree_of self.now.view) j) (kind_at self.now.view.schema.now (on_kind self.now.view.on) j) result }
        ensures own { IsTrue (is_element result) }
    {
        match self.view.on {
            On::Array(of) => self.view.element_place(of, self.count, j),
            On::Struct(_) => unreachable!(),
            On::Map(_, _) => unreachable!(),
            On::Union(_) => unreachable!(),
        }
    }

    /// The number that an element is, as `View::number`. Where it is known first that all are integers, the
    /// kind is known too wherever this is inlined.
    #[inline(always)]
    pub fn number(&self, j: u32) -> Option<i128>
        ensures { result ≡ option_and_then number_of (part (array_seen self.now) j) }
    {
        if self.has_integers() {
            self.element_number(j)
        } else {
            self.element_number(j)
        }
    }

    /// Whether the elements are integers, which says no more than how soon their numbers are found.
    #[inline(always)]
    fn has_integers(&self) -> bool {
        match self.view.on {
            On::Array(of) => match of {
                KindNode::Int { .. } => true,
                _ => false,
            },
            _ => false,
        }
    }

    /// The number that an element is.
    #[inline(always)]
    fn element_number(&self, j: u32) -> Option<i128>
        ensures { result ≡ option_and_then number_of (part (array_seen self.now) j) }
    {
        match self.place(j) {
            Place::Slot { at, bit, kind } => number_at(self.view.bytes, at, bit, kind),
            Place::Nothing => None,
            // No element lies there.
            Place::Null => unreachable!(),
            Place::Absent(_) => unreachable!(),
            Place::Member { .. } => unreachable!(),
            Place::List { .. } => unreachable!(),
        }
    }

    /// The view of an element that is a struct. None exactly where there is no such element, or it is null
    /// or of another kind.
    #[inline(always)]
    pub fn item(&self, j: u32) -> Option<StructView<'a>>
        ensures { option_map struct_seen result ≡ option_and_then held (of_kind is_struct
            (kind_at (schema_of (array_itself self.now)) (kind_of (array_itself self.now)) j) (part (array_seen self.now) j)) }
    {
        match self.place(j) {
            Place::Slot { at, bit, kind } => struct_in(
                self.view.schema,
                self.view.bytes,
                at,
                bit,
                kind,
                self.view.left,
            ),
            Place::Nothing => None,
            // No element lies there.
            Place::Null => unreachable!(),
            Place::Absent(_) => unreachable!(),
            Place::Member { .. } => unreachable!(),
            Place::List { .. } => unreachable!(),
        }
    }
}
