//! Where all things are that were made, by their names.

ghost use Rattle.std.specs.Prelude.{◌≡◌, ◌<◌, ◌^◌, ◌-◌, [], IfOk, OnErr};
ghost use Rattle.handle_table.specs.Places.{place_of, ends_made, tokens_made, Stay, Moves, GainsToken, GainsTokens, GainsPipe};
ghost use Rattle.handle_table.specs.steps.Growing.{GainsEnd};

use crate::numbered::Numbered;
use crate::places::Place;
use crate::thing::{Thing, TokenId};
use mj_base::{EndId, SeqId};
use std::alloc::{AllocError, Global};
use std::marker::Model;

/// Where each thing is that was made. It makes no handles: who has it says what is done with which thing.
/// Contracts see the places of all that was made.
#[derive(Drop)]
pub struct PlaceTable {
    ends: Numbered,
    tokens: Numbered,
}

impl Model for PlaceTable {
    ghost use Rattle.handle_table.specs.Places.{Store};

    ghost Value = { Store };

    ghost view = { λ table. record { ends = table.ends; tokens = table.tokens } };
}

impl PlaceTable {
    /// Nothing was made. Takes no memory.
    pub fn new(alloc: Global) -> PlaceTable
        ensures { result ≡ record { ends = []; tokens = [] } }
    {
        PlaceTable {
            ends: Numbered::new(alloc),
            tokens: Numbered::new(alloc),
        }
    }

    /// How many ends a sequence made.
    pub fn ends_made(&self, seq: SeqId) -> usize
        ensures { result ≡ ends_made self.now seq.0 }
    {
        self.ends.count(seq.0)
    }

    /// How many tokens a sequence made.
    pub fn tokens_made(&self, seq: SeqId) -> usize
        ensures { result ≡ tokens_made self.now seq.0 }
    {
        self.tokens.count(seq.0)
    }

    /// Where a thing is; none exactly where it was never made.
    pub fn place(&self, thing: Thing) -> Option<Place>
        ensures { result ≡ place_of self.now thing }
    {
        match thing {
            Thing::End(end) => self.ends.get(end.seq, end.serial),
            Thing::Token(token) => self.tokens.get(token.seq, token.serial),
        }
    }

    /// Moves a thing that was made to a place.
    pub fn set(&mut self, thing: Thing, place: Place)
        ensures { Moves thing place self.old self.new }
    {
        match thing {
            Thing::End(end) => self.ends.set(end.seq, end.serial, place),
            Thing::Token(token) => self.tokens.set(token.seq, token.serial, place),
        }
    }

    /// Makes a token of a sequence. Without memory nothing changes.
    pub fn make(&mut self, alloc: Global, seq: SeqId) -> Result<Thing, AllocError>
        requires { tokens_made self.old seq.0 < 2 ^ 32 }
        ensures ok { IfOk result (λ thing. GainsToken seq.0 thing self.old self.new) }
        ensures err { OnErr result (Stay self.old self.new) }
    {
        let serial = self.tokens.count(seq.0) as u32;
        self.tokens.push(alloc, seq.0, Place::Out)?;
        Ok(Thing::Token(TokenId { seq: seq.0, serial }))
    }

    /// Makes two tokens of a sequence, the second with the next number. Without memory nothing changes.
    pub fn make_two(&mut self, alloc: Global, seq: SeqId) -> Result<(Thing, Thing), AllocError>
        requires { tokens_made self.old seq.0 < 2 ^ 32 - 1 }
        ensures ok { IfOk result (λ two. GainsTokens seq.0 two.0 two.1 self.old self.new) }
        ensures err { OnErr result (Stay self.old self.new) }
    {
        let one = self.make(alloc, seq)?;
        match self.make(alloc, seq) {
            Ok(other) => Ok((one, other)),
            Err(error) => {
                self.tokens.pop(seq.0);
                Err(error)
            }
        }
    }

    /// The next end of a sequence.
    fn make_end(&mut self, alloc: Global, seq: SeqId) -> Result<EndId, AllocError>
        requires { ends_made self.old seq.0 < 2 ^ 32 }
        ensures ok { IfOk result (λ end. GainsEnd seq.0 end self.old self.new) }
        ensures err { OnErr result (Stay self.old self.new) }
    {
        let serial = self.ends.count(seq.0) as u32;
        self.ends.push(alloc, seq.0, Place::Out)?;
        Ok(EndId { seq: seq.0, serial })
    }

    /// Makes two ends, the first of one sequence and the second of another or of the same. Without memory
    /// nothing changes.
    pub fn make_pipe(
        &mut self,
        alloc: Global,
        first: SeqId,
        second: SeqId,
    ) -> Result<(Thing, Thing), AllocError>
        requires first { ends_made self.old first.0 < 2 ^ 32 - 1 }
        requires second { ends_made self.old second.0 < 2 ^ 32 - 1 }
        ensures ok { IfOk result (λ pipe. GainsPipe first.0 second.0 pipe.0 pipe.1 self.old self.new) }
        ensures err { OnErr result (Stay self.old self.new) }
    {
        let one = self.make_end(alloc, first)?;
        match self.make_end(alloc, second) {
            Ok(other) => Ok((Thing::End(one), Thing::End(other))),
            Err(error) => {
                self.ends.pop(first.0);
                Err(error)
            }
        }
    }
}
