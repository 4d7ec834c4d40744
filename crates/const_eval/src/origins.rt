//! Where the values of things come from.

ghost use Rattle.std.specs.Prelude.{◌≡◌, ◌<◌, ◌^◌, IfOk, length};
ghost use Rattle.const_eval.specs.Things.{numbered};
ghost use Rattle.const_eval.specs.Origins.{of_thing, or_missing, origins_in};

use crate::file_things::{FileThings, thing_of};
use crate::literal::literal_of;
use crate::trees::{basic_of_base, enumerators_of};
use const_meanings::{Literal, Origin};
use module_resolver::{Names, Place};
use mojom_ast::{Enumerator, Value};
use mojom_files::{Basic, DefinitionView, ItemView, NamedFile, definitions, dotted};
use std::alloc::{AllocError, Global};

/// That of another thing, where there is one.
fn of_thing(thing: Option<usize>) -> Origin
    ensures { result ≡ of_thing thing }
{
    match thing {
        Some(thing) => Origin::Of(thing),
        None => Origin::Missing,
    }
}

/// What is written there, where it is.
fn or_missing(literal: Option<Literal>) -> Origin
    ensures { result ≡ or_missing literal }
{
    match literal {
        Some(literal) => Origin::Written(literal),
        None => Origin::Missing,
    }
}

/// What gives a name its meaning: where things stand, the names of all files, and the number of the
/// file in which the name stands.
#[derive(Clone, Copy)]
struct Scope<'a> {
    things: &'a [FileThings],
    names: &'a Names,
    file: u32,
}

impl Scope<'_> {
    ghost use Rattle.std.specs.Prelude.{◌≡◌, ◌++◌, IfOk, OnOk, map};
    ghost use Rattle.std.specs.List.{flat_map};
    ghost use Rattle.const_eval.specs.Origins.{origin_of_value, origin_of_definition, origin_or, origins_in_order, origins_of_enumerators, origins_in};

    /// Where a value comes from that stands here.
    fn origin_of_value(
        &self,
        alloc: Global,
        place: &Place<'_>,
        value: &Value,
    ) -> Result<Origin, AllocError>
        ensures { IfOk result (λ origin. origin ≡ origin_of_value self.now.things.now place.now.files place.now.file place.now.enclosing value.now) }
    {
        let Value::Name(name) = value else {
            return Ok(or_missing(literal_of(alloc, value)?));
        };
        let text = dotted(alloc, name.parts.as_slice())?;
        match place.look_up(text.as_str()) {
            Some(target) => Ok(of_thing(thing_of(self.things, target))),
            None => Ok(Origin::Missing),
        }
    }

    /// Where a value comes from that stands here, if it is written; where it isn't, it comes from this.
    fn origin_or(
        &self,
        alloc: Global,
        place: &Place<'_>,
        implied: Origin,
        value: &Option<Value>,
    ) -> Result<Origin, AllocError>
        ensures { IfOk result (λ origin. origin
            ≡ origin_or implied (origin_of_value self.now.things.now place.now.files place.now.file place.now.enclosing) value.now) }
    {
        match value {
            Some(value) => self.origin_of_value(alloc, place, value),
            None => Ok(implied),
        }
    }

    /// Where the value of a definition comes from.
    fn origin_of_definition(
        &self,
        alloc: Global,
        definition: &DefinitionView<'_>,
    ) -> Result<Origin, AllocError>
        ensures { IfOk result (λ origin. origin ≡ origin_of_definition self.now.things.now self.now.names.now.files self.now.file definition.now) }
    {
        let ItemView::Const(item) = definition.item() else {
            return Ok(Origin::Missing);
        };
        match basic_of_base(&item.kind.node().base) {
            Some(Basic::Float | Basic::Double) => Ok(Origin::Written(Literal::Float)),
            _ => {
                let enclosing = definition.enclosing(alloc)?;
                let around = self.names.place(self.file, &enclosing);
                self.origin_of_value(alloc, &around, &item.value)
            }
        }
    }

    /// Adds where the values of definitions come from.
    fn add_definitions(
        &self,
        alloc: Global,
        origins: &mut Vec<Origin>,
        definitions: &[DefinitionView<'_>],
    ) -> Result<(), AllocError>
        ensures { OnOk result (origins.new.items ≡ origins.old.items
            ++ map (origin_of_definition self.now.things.now self.now.names.now.files self.now.file) definitions.now) }
    {
        for definition in definitions {
            origins.push(self.origin_of_definition(alloc, definition)?)?;
        }
        Ok(())
    }

    /// Adds where the values of enumerators come from, which stand here.
    fn add_in_order(
        &self,
        alloc: Global,
        origins: &mut Vec<Origin>,
        place: &Place<'_>,
        enumerators: &[Enumerator],
    ) -> Result<(), AllocError>
        ensures { OnOk result (origins.new.items ≡ origins.old.items
            ++ origins_in_order (origin_of_value self.now.things.now place.now.files place.now.file place.now.enclosing) enumerators.now) }
    {
        let [first, rest @ ..] = enumerators else {
            return Ok(());
        };
        let zero = Origin::Written(Literal::Number {
            negative: false,
            magnitude: 0,
        });
        origins.push(self.origin_or(alloc, place, zero, &first.value)?)?;
        for enumerator in rest {
            origins.push(self.origin_or(alloc, place, Origin::Next, &enumerator.value)?)?;
        }
        Ok(())
    }

    /// Adds where the values of a definition's enumerators come from.
    fn add_enumerators_of(
        &self,
        alloc: Global,
        origins: &mut Vec<Origin>,
        definition: &DefinitionView<'_>,
    ) -> Result<(), AllocError>
        ensures { OnOk result (origins.new.items ≡ origins.old.items
            ++ origins_of_enumerators self.now.things.now self.now.names.now.files self.now.file definition.now) }
    {
        let enumerators = enumerators_of(definition);
        let [_, ..] = enumerators else {
            return Ok(());
        };
        let full = Some(definition.full(alloc)?);
        let inside = self.names.place(self.file, &full);
        self.add_in_order(alloc, origins, &inside, enumerators)
    }

    /// Adds where the values of the enumerators of definitions come from.
    fn add_enumerators(
        &self,
        alloc: Global,
        origins: &mut Vec<Origin>,
        definitions: &[DefinitionView<'_>],
    ) -> Result<(), AllocError>
        ensures { OnOk result (origins.new.items ≡ origins.old.items
            ++ flat_map (origins_of_enumerators self.now.things.now self.now.names.now.files self.now.file) definitions.now) }
    {
        for definition in definitions {
            self.add_enumerators_of(alloc, origins, definition)?;
        }
        Ok(())
    }

    /// Adds where the values of a file's things come from.
    fn add_file(
        &self,
        alloc: Global,
        origins: &mut Vec<Origin>,
        file: &NamedFile,
    ) -> Result<(), AllocError>
        ensures { OnOk result (origins.new.items ≡ origins.old.items ++ origins_in self.now.things.now self.now.names.now.files self.now.file file.now) }
    {
        let definitions = definitions(alloc, &file.tree)?;
        self.add_definitions(alloc, origins, definitions.as_slice())?;
        self.add_enumerators(alloc, origins, definitions.as_slice())
    }
}

/// Where the values of the things of fewer than 2^32 files come from, where these stand so.
pub fn origins(
    alloc: Global,
    files: &[NamedFile],
    things: &[FileThings],
    names: &Names,
) -> Result<Vec<Origin>, AllocError>
    requires { length files.now < 2 ^ 32 }
    ensures { IfOk result (λ origins. origins.items ≡ numbered (origins_in things.now names.now.files) 0 files.now) }
{
    let mut origins = Vec::new(alloc);
    for (number, file) in files.iter().enumerate() {
        let scope = Scope {
            things,
            names,
            file: number as u32,
        };
        scope.add_file(alloc, &mut origins, file)?;
    }
    Ok(origins)
}
