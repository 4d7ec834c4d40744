//! All data pipes, in one table.

ghost use Rattle.std.specs.Prelude.{◌≡◌, [], Some, None, IfOk, IfErr, IsTrue, OnOk, OnErr};
ghost use Rattle.std.specs.Option.{option_copied};
ghost use Rattle.data_pipe.specs.Moving.{WantsToGet};
ghost use Rattle.data_pipe.specs.Table.{begun_token, bytes_for, first_begun, has_line, is_begun, line_of, pipe_at, side_in, AllStay, Becomes, Moves, Refuses};

use crate::refused::DataRefused;
use crate::ring::DataPipe;
use crate::side::{DataToken, Side};
use bind_model::{Flow, Flowed};
use handle_table::{Thing, TokenId};
use mj_base::Items;
use std::alloc::{AllocError, Global};
use std::collections::BTreeMap;
use std::marker::Model;

/// All data pipes, each by the token of its producer; that of its consumer has the number behind it.
/// Contracts see a line for each.
#[derive(Drop)]
pub struct DataTable {
    pipes: BTreeMap<TokenId, DataPipe>,
}

impl Model for DataTable {
    ghost use Rattle.std.specs.Prelude.{List};
    ghost use Rattle.handle_table.specs.declared.thing.TokenId.{TokenId};
    ghost use Rattle.data_pipe.specs.Pipe.{Pipe};

    ghost Value = { List (TokenId × Pipe) };

    ghost view = { λ table. table.pipes.entries };
}

impl DataTable {
    /// No data pipes. Takes no memory.
    pub fn new(alloc: Global) -> DataTable
        ensures { result ≡ [] }
    {
        DataTable {
            pipes: BTreeMap::new(alloc),
        }
    }

    /// The data pipe of a producer.
    fn get(&self, producer: TokenId) -> Option<&DataPipe>
        ensures { option_copied result ≡ line_of self.now producer }
    {
        self.pipes.get(&producer)
    }

    /// Whether a token is a producer.
    fn has_line(&self, token: TokenId) -> bool
        ensures { result ≡ has_line self.now token }
    {
        self.get(token).is_some()
    }

    /// Of which data pipe a token is, and of which side.
    pub fn find(&self, token: TokenId) -> Option<DataToken>
        ensures { result ≡ side_in self.now token }
    {
        if self.has_line(token) {
            return Some(DataToken {
                producer: token,
                side: Side::Producer,
            });
        }
        if token.serial == 0 {
            return None;
        }
        let producer = TokenId {
            seq: token.seq,
            serial: token.serial - 1,
        };
        if self.has_line(producer) {
            Some(DataToken {
                producer,
                side: Side::Consumer,
            })
        } else {
            None
        }
    }

    /// Whether something was begun at a token, and didn't end.
    pub fn is_begun(&self, token: TokenId) -> bool
        ensures { result ≡ is_begun self.now token }
    {
        let Some(found) = self.find(token) else {
            return false;
        };
        match self.get(found.producer) {
            Some(pipe) => pipe.is_begun(found.side),
            None => false,
        }
    }

    /// The token that a thing is, where something was begun there.
    fn begun_token(&self, thing: Thing) -> Option<TokenId>
        ensures { result ≡ begun_token self.now thing }
    {
        match thing {
            Thing::Token(token) if self.is_begun(token) => Some(token),
            _ => None,
        }
    }

    /// The first of these that is such a token.
    pub fn first_begun(&self, things: &[Thing]) -> Option<TokenId>
        ensures { result ≡ first_begun self.now things.now }
    {
        for thing in things {
            if let Some(token) = self.begun_token(*thing) {
                return Some(token);
            }
        }
        None
    }

    /// Enters a data pipe, by the token of its producer. Without memory nothing changes.
    pub fn enter(&mut self, producer: TokenId, pipe: DataPipe) -> Result<(), AllocError>
        ensures ok { OnOk result (Becomes producer (Some pipe) self.old self.new) }
        ensures err { OnErr result (AllStay self.old self.new) }
    {
        self.pipes.insert(producer, pipe)?;
        Ok(())
    }

    /// Takes the data pipe of a producer away again.
    pub fn remove(&mut self, producer: TokenId)
        ensures { Becomes producer None self.old self.new }
    {
        self.pipes.remove(&producer);
    }

    /// The bytes that are told of what is asked of a producer's data pipe, where nothing refuses it.
    pub fn told_bytes(
        &self,
        alloc: Global,
        producer: TokenId,
        flow: &Flow,
    ) -> Result<Items<u8>, AllocError>
        requires { IsTrue (has_line self.now producer) }
        ensures { IfOk result (λ bytes. bytes ≡ bytes_for (pipe_at self.now producer) flow.now) }
    {
        match self.get(producer) {
            Some(pipe) => pipe.told_bytes(alloc, flow),
            None => Ok(Items::new(alloc)),
        }
    }

    /// What is asked of a producer's data pipe, with the other side gone or not. Refused, nothing changes. Takes
    /// memory only where bytes come out.
    pub fn flow(
        &mut self,
        alloc: Global,
        producer: TokenId,
        flow: &Flow,
        gone: bool,
    ) -> Result<Flowed, DataRefused>
        requires { IsTrue (has_line self.old producer) }
        ensures ok { IfOk result (λ flowed. Moves producer gone flow.now flowed self.old self.new) }
        ensures err { IfErr result (λ refused. Refuses producer gone flow.now refused self.old self.new) }
        ensures wants { IfErr result (λ refused. WantsToGet flow.now refused) }
    {
        match self.pipes.get_mut(&producer) {
            Some(pipe) => pipe.flow(alloc, flow, gone),
            None => Err(DataRefused::Memory),
        }
    }
}
