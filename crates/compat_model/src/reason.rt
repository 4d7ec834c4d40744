//! Why a newer schema doesn't read what an older one writes, and what is answered.

ghost use Rattle.std.specs.Prelude.{◌≡◌};
ghost use Rattle.compat_model.specs.Words.{word_of};

use mj_base::FullName;

/// What breaks a pair: of a field or a method by its ordinal, of a member of an enum by its number, of
/// a field of a union by its tag.
#[derive(Clone, Copy)]
pub enum Change {
    /// The newer schema has no definition of this sort and full name.
    Missing,
    /// The newer definition isn't stable.
    NotStable,
    /// The older enum or union is extensible, the newer one isn't.
    ExtensibleGone,
    /// The newer enum has no member of this number, and isn't extensible.
    MemberGone(i32),
    /// The newer union has no field of this tag.
    TagGone(u32),
    /// The newer interface has no method of this ordinal.
    MethodGone(u32),
    /// The method has a response in one of the two, and none in the other.
    ResponseChanged(u32),
    /// The newer struct has no field of this ordinal.
    FieldGone(u32),
    /// The kinds of the two fields don't fit.
    KindChanged(u32),
    /// The two fields are there since different versions.
    VersionChanged(u32),
    /// A field that the older struct lacks is there since a version that the older struct knows.
    EarlyField(u32),
}

impl Change {
    /// The word for it.
    pub fn word(self) -> &'static str
        ensures { result.now ≡ word_of self }
    {
        match self {
            Change::Missing => "Missing",
            Change::NotStable => "NotStable",
            Change::ExtensibleGone => "ExtensibleGone",
            Change::MemberGone(_) => "MemberGone",
            Change::TagGone(_) => "TagGone",
            Change::MethodGone(_) => "MethodGone",
            Change::ResponseChanged(_) => "ResponseChanged",
            Change::FieldGone(_) => "FieldGone",
            Change::KindChanged(_) => "KindChanged",
            Change::VersionChanged(_) => "VersionChanged",
            Change::EarlyField(_) => "EarlyField",
        }
    }
}

/// A change, with the full name of the older definition; that of the newer one where the newer one has a
/// field too early.
#[derive(Drop)]
pub struct Reason {
    pub change: Change,
    pub name: FullName,
}

/// Whether a newer schema reads what the stable definitions of an older one write.
#[derive(Drop)]
pub enum Verdict {
    /// It does. So many definitions of the older schema are stable.
    Compatible(u32),
    /// It doesn't, for this reason first.
    Broken(Reason),
}
