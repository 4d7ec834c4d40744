//! Full names by their parts.

ghost use Rattle.std.specs.Prelude.{◌≡◌, ◌++◌, IfOk, OnOk};
ghost use Rattle.std.specs.Str.{bytes_eq};
ghost use Rattle.mj_base.specs.Names.{named_in, full_name};

use crate::compare::{is_named_in, is_nested};
use crate::names::{named_in, push_named_in, push_nested, within};
use crate::shared_text::{SharedText, shared};
use crate::text::Text;
use std::alloc::{AllocError, Global};
use std::marker::Model;

/// The parts of a full name: the module's name, where there is one, the own name of the definition around
/// it, where there is one, and its own name.
#[derive(Clone, Copy)]
pub struct NameParts<'a> {
    pub module_name: &'a Option<SharedText>,
    pub outer: &'a Option<SharedText>,
    pub name: &'a str,
}

impl<'a> NameParts<'a> {
    ghost use Rattle.std.specs.Prelude.{◌≡◌, IfOk};
    ghost use Rattle.mj_base.specs.Names.{around, full_name};

    /// The full name, as one text.
    pub fn full(&self, alloc: Global) -> Result<Text, AllocError>
        ensures { IfOk result (λ full. full ≡ full_name self.now.module_name.now self.now.outer.now self.now.name.now) }
    {
        match self.outer {
            Some(outer) => {
                let outer = named_in(alloc, self.module_name, outer.as_str())?;
                within(alloc, outer.as_str(), self.name)
            }
            None => named_in(alloc, self.module_name, self.name),
        }
    }

    /// The full name of the definition around it, as one text, where there is one.
    pub fn enclosing(&self, alloc: Global) -> Result<Option<Text>, AllocError>
        ensures { IfOk result (λ enclosing. enclosing ≡ around self.now.module_name.now self.now.outer.now) }
    {
        match self.outer {
            Some(outer) => Ok(Some(named_in(alloc, self.module_name, outer.as_str())?)),
            None => Ok(None),
        }
    }

    /// The full name by its parts: the own name is copied, the others are shared.
    pub fn kept(&self, alloc: Global) -> Result<FullName, AllocError>
        ensures { IfOk result (λ made. made ≡ full_name self.now.module_name.now self.now.outer.now self.now.name.now) }
    {
        let module_name = shared(self.module_name)?;
        let outer = shared(self.outer)?;
        let name = Text::from_str(alloc, self.name)?;
        Ok(FullName {
            module_name,
            outer,
            name,
        })
    }
}

/// A full name, kept by its parts: those that it has together with others are kept once for all of them.
/// Contracts see the full name.
#[derive(Drop)]
pub struct FullName {
    module_name: Option<SharedText>,
    outer: Option<SharedText>,
    name: Text,
}

impl Model for FullName {
    ghost use Rattle.std.specs.Prelude.{List, ℕ};
    ghost use Rattle.mj_base.specs.Names.{full_name};

    ghost Value = { List ℕ };

    ghost view = { λ f. full_name f.module_name f.outer f.name };
}

/// The full name of a thing that others stand in, kept once for all of them. Contracts see the full name.
#[derive(Drop)]
pub struct OuterName {
    module_name: Option<SharedText>,
    outer: SharedText,
}

impl Model for OuterName {
    ghost use Rattle.std.specs.Prelude.{List, ℕ};
    ghost use Rattle.mj_base.specs.Names.{named_in};

    ghost Value = { List ℕ };

    ghost view = { λ o. named_in o.module_name o.outer };
}

/// Adds a full name at the end.
fn push_full(out: &mut Vec<u8>, name: NameParts<'_>) -> Result<(), AllocError>
    ensures { OnOk result (out.new.items ≡ out.old.items
        ++ full_name name.entry.module_name.now name.entry.outer.now name.entry.name.now) }
{
    match name.outer {
        Some(outer) => push_nested(out, name.module_name, outer.as_str(), name.name),
        None => push_named_in(out, name.module_name, name.name),
    }
}

/// Whether these bytes are the full name.
fn is_full(name: NameParts<'_>, bytes: &[u8]) -> bool
    ensures { result ≡ bytes_eq (full_name name.entry.module_name.now name.entry.outer.now name.entry.name.now) bytes.now }
{
    match name.outer {
        Some(outer) => is_nested(name.module_name, outer.as_str(), name.name, bytes),
        None => is_named_in(name.module_name, name.name, bytes),
    }
}

/// A full name, kept for what stands in it.
fn kept_for_inner(alloc: Global, name: NameParts<'_>) -> Result<OuterName, AllocError>
    ensures { IfOk result (λ made.
        made ≡ named_in name.entry.module_name.now (named_in name.entry.outer.now name.entry.name.now)) }
{
    let own = named_in(alloc, name.outer, name.name)?;
    let outer = SharedText::new(alloc, own)?;
    let module_name = shared(name.module_name)?;
    Ok(OuterName { module_name, outer })
}

impl FullName {
    ghost use Rattle.std.specs.Prelude.{◌≡◌, ◌++◌, IfOk, OnOk};
    ghost use Rattle.std.specs.Str.{bytes_eq};
    ghost use Rattle.mj_base.specs.Names.{full_name};

    /// The full name that is this text, which has nothing together with others. Takes no memory.
    pub fn own(name: Text) -> FullName
        ensures { result ≡ name }
    {
        FullName {
            module_name: None,
            outer: None,
            name,
        }
    }

    /// The parts.
    pub fn parts(&self) -> NameParts<'_>
        ensures { self.now ≡ full_name result.module_name.now result.outer.now result.name.now }
    {
        NameParts {
            module_name: &self.module_name,
            outer: &self.outer,
            name: self.name.as_str(),
        }
    }

    /// The full name, as one text.
    pub fn full(&self, alloc: Global) -> Result<Text, AllocError>
        ensures { IfOk result (λ full. full ≡ self.now) }
    {
        self.parts().full(alloc)
    }

    /// The same full name for one more: the own name is copied, the others are shared.
    pub fn share(&self, alloc: Global) -> Result<FullName, AllocError>
        ensures { IfOk result (λ made. made ≡ self.now) }
    {
        self.parts().kept(alloc)
    }

    /// The same full name for what stands in it: it is copied once for all of that.
    pub fn for_inner(&self, alloc: Global) -> Result<OuterName, AllocError>
        ensures { IfOk result (λ made. made ≡ self.now) }
    {
        let made = kept_for_inner(alloc, self.parts())?;
        Ok(made)
    }

    /// Adds the full name at the end.
    pub fn push_to(&self, out: &mut Vec<u8>) -> Result<(), AllocError>
        ensures { OnOk result (out.new.items ≡ out.old.items ++ self.now) }
    {
        push_full(out, self.parts())
    }

    /// Whether these bytes are the full name. They are compared with part after part, the last part first.
    pub fn has_bytes(&self, bytes: &[u8]) -> bool
        ensures { result ≡ bytes_eq self.now bytes.now }
    {
        is_full(self.parts(), bytes)
    }
}

impl OuterName {
    ghost use Rattle.std.specs.Prelude.{◌≡◌, IfOk};
    ghost use Rattle.mj_base.specs.Names.{within};

    /// The full name of what stands in it by this name.
    pub fn inner(&self, name: Text) -> Result<FullName, AllocError>
        ensures { IfOk result (λ made. made ≡ within self.now name) }
    {
        let module_name = shared(&self.module_name)?;
        let outer = self.outer.share()?;
        Ok(FullName {
            module_name,
            outer: Some(outer),
            name,
        })
    }

    /// The full name of what stands by the last name in what stands by the first in it.
    pub fn inner_of(&self, alloc: Global, first: &str, last: &str) -> Result<FullName, AllocError>
        ensures { IfOk result (λ made. made ≡ within (within self.now first.now) last.now) }
    {
        let own = within(alloc, first, last)?;
        let made = self.inner(own)?;
        Ok(made)
    }
}
