//! Where names stand.

use crate::file_names::Names;
use crate::find::look_up_from;
use crate::seat::Seat;
use crate::target::{DefinitionSort, Target};
use mj_base::Text;
use std::marker::Model;

/// Where names stand: in the file of a number, and within the definition of a full name, where there is one.
/// It is made once for all names that stand there: that full name is walked through once, and a look-up
/// takes no longer where it is long.
#[derive(Drop)]
pub struct Place<'a> {
    names: &'a Names,
    file: u32,
    enclosing: &'a Option<Text>,
    seat: Option<Seat<'a>>,
}

impl<'a> Model for Place<'a> {
    ghost use Rattle.module_resolver.specs.Places.{Spot};

    ghost Value = { Spot };

    ghost use Rattle.module_resolver.specs.Seats.{IsSeated};

    ghost view = { λ p. record { files = p.names.now.files; file = p.file; enclosing = p.enclosing.now } };

    ghost invariant = { λ p. IsSeated p.names.now.files p.file p.enclosing.now p.seat };
}

impl Names {
    ghost use Rattle.std.specs.Prelude.{◌≡◌};
    ghost use Rattle.module_resolver.specs.LookUp.{sort_of};

    /// Where names stand in the file of this number, within the definition of this full name.
    pub fn place<'a>(&'a self, file: u32, enclosing: &'a Option<Text>) -> Place<'a>
        ensures files { result.files ≡ self.now.files }
        ensures file { result.file ≡ file }
        ensures enclosing { result.enclosing ≡ enclosing.now }
    {
        Place {
            names: self,
            file,
            enclosing,
            seat: self.files.seat(file, enclosing),
        }
    }

    /// What the definition is that a name means; none exactly where it means no definition.
    fn sort_of(&self, target: Target) -> Option<DefinitionSort>
        ensures { result ≡ sort_of self.now.files target }
    {
        match target {
            Target::Definition { file, number } => {
                let names = self.files.as_slice().get(file as usize)?;
                names.sorts.as_slice().get(number).copied()
            }
            Target::Enumerator { .. } => None,
        }
    }
}

impl<'a> Place<'a> {
    ghost use Rattle.std.specs.Prelude.{◌≡◌};
    ghost use Rattle.module_resolver.specs.LookUp.{look_up, sort_of};

    /// The number of the file.
    pub fn file(&self) -> u32
        ensures { result ≡ self.now.file }
    {
        self.file
    }

    /// Within the definition of this full name, in the same file.
    pub fn within<'b>(&'b self, enclosing: &'b Option<Text>) -> Place<'b>
        ensures files { result.files ≡ self.now.files }
        ensures file { result.file ≡ self.now.file }
        ensures enclosing { result.enclosing ≡ enclosing.now }
    {
        self.names.place(self.file, enclosing)
    }

    /// What a name means that stands here: none exactly where nothing that the file sees has one of the full
    /// names for which it may stand.
    pub fn look_up(&self, name: &str) -> Option<Target>
        ensures { result ≡ look_up self.now.files self.now.file self.now.enclosing name.now }
    {
        match self.seat {
            Some(seat) => look_up_from(
                seat.index, seat.dots, seat.nodes, seat.here, seat.node, name,
            ),
            None => None,
        }
    }

    /// What the definition is that a name means; none exactly where it means no definition.
    pub fn sort_of(&self, target: Target) -> Option<DefinitionSort>
        ensures { result ≡ sort_of self.now.files target }
    {
        self.names.sort_of(target)
    }
}
