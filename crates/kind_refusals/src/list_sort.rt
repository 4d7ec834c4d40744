//! The sorts of lists of members.

ghost use Rattle.std.specs.Prelude.{◌≡◌};

use mj_base::limits::{MAX_FIELDS, MAX_METHODS, MAX_PARAMETERS, MAX_UNION_FIELDS};

/// What a list of members is of.
#[derive(Clone, Copy)]
pub enum ListSort {
    Fields,
    UnionFields,
    Methods,
    Parameters,
}

impl ListSort {
    ghost use Rattle.std.specs.Prelude.{◌≡◌};
    ghost use Rattle.kind_refusals.specs.KindRefusals.{limit_of, is_struct};

    /// The most members that a list of this sort may have.
    pub fn limit(self) -> usize
        ensures { result ≡ limit_of self }
    {
        match self {
            ListSort::Fields => MAX_FIELDS,
            ListSort::UnionFields => MAX_UNION_FIELDS,
            ListSort::Methods => MAX_METHODS,
            ListSort::Parameters => MAX_PARAMETERS,
        }
    }

    /// Whether the list is that of a struct, or is made one: parameters are. In these lists a bool, an
    /// integer or an enum may be null.
    pub fn is_struct(self) -> bool
        ensures { result ≡ is_struct self }
    {
        matches!(self, ListSort::Fields | ListSort::Parameters)
    }
}
