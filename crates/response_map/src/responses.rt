//! The callbacks of all requests that wait.

ghost use Rattle.std.specs.Prelude.{◌≡◌, ◌-◌, ◌<◌, ◌≤◌, None, not, IsOk, OnOk, OnErr};
ghost use Rattle.std.specs.FinMap as map;
ghost use Rattle.response_map.specs.Keys.{is_of_end, is_of_endpoint};
ghost use Rattle.response_map.specs.steps.Scopes.{has};

use crate::key::Key;
use crate::newest::{drop_newest, take_newest};
use crate::scope::Scope;
use crate::settled::drop_settled;
use mj_base::EndId;
use std::alloc::{AllocError, Global};
use std::collections::BTreeMap;
use std::marker::Model;

/// Callbacks by their requests. No call runs one. Contracts see the callback of each request, and for
/// how many more there is room.
#[derive(Drop)]
pub struct ResponseMap<C> {
    /// All callbacks but the newest.
    settled: BTreeMap<Key, C>,
    /// The newest callback. A tree can't be given room beforehand, so it stays here until the next
    /// `reserve` moves it to the others.
    newest: Option<(Key, C)>,
}

impl<C> Model for ResponseMap<C> {
    ghost use Rattle.std.specs.Prelude.{◌≡◌, None, IfSome};
    ghost use Rattle.std.specs.FinMap as map;
    ghost use Rattle.response_map.specs.Contents.{Contents, callbacks_of, seen};
    ghost use Rattle.response_map.specs.steps.Codes.{contents_code};

    ghost Value = { Contents C };

    ghost coded = { contents_code C.code };

    ghost view = { λ responses. seen responses.newest responses.settled };

    ghost invariant = { λ responses. IfSome responses.newest (λ entry. map.get (callbacks_of responses.settled) entry.0 ≡ None) };
}

impl<C> ResponseMap<C> {
    /// No callbacks. Takes no memory.
    pub fn new(alloc: Global) -> ResponseMap<C>
        ensures { result.callbacks ≡ map.empty }
    {
        ResponseMap {
            settled: BTreeMap::new(alloc),
            newest: None,
        }
    }

    /// Whether a request has a callback.
    pub fn contains(&self, key: Key) -> bool
        ensures { result ≡ map.contains_key self.now.callbacks key }
    {
        match &self.newest {
            Some((newest, _callback)) if *newest == key => true,
            _ => self.settled.contains_key(&key),
        }
    }
}

impl<C: Drop> ResponseMap<C> {
    /// Makes room for one callback more. Without memory nothing changes.
    pub fn reserve(&mut self) -> Result<(), AllocError>
        ensures same { self.new.callbacks ≡ self.old.callbacks }
        ensures room { OnOk result (0 < self.new.spare) }
        ensures err { OnErr result (self.new ≡ self.old) }
        ensures had_room { 0 < self.old.spare → IsOk result }
    {
        let Some((key, callback)) = self.newest.take() else {
            return Ok(());
        };
        match self.settled.insert(key, callback) {
            Ok(_before) => Ok(()),
            Err(failed) => {
                self.newest = Some(failed.value);
                Err(AllocError)
            }
        }
    }

    /// Keeps the callback of a request that has none. Takes no memory.
    pub fn put(&mut self, key: Key, callback: C)
        requires room { 0 < self.old.spare }
        requires absent { map.get self.old.callbacks key ≡ None }
        ensures { self.new ≡ record { callbacks = map.insert self.old.callbacks key callback; spare = self.old.spare - 1 } }
    {
        self.newest = Some((key, callback));
    }

    /// Hands out the callback of a request; none exactly where it has none.
    pub fn take(&mut self, key: Key) -> Option<C>
        ensures callback { result ≡ map.get self.old.callbacks key }
        ensures others { self.new.callbacks ≡ map.remove self.old.callbacks key }
        ensures room { self.old.spare ≤ self.new.spare }
    {
        match take_newest(&mut self.newest, key) {
            Some(callback) => Some(callback),
            None => self.settled.remove(&key),
        }
    }

    /// Drops the callbacks of a scope.
    fn drop_scope(&mut self, scope: Scope)
        ensures others { self.new.callbacks ≡ map.retain_keys self.old.callbacks (λ key. not (has scope key)) }
        ensures room { self.old.spare ≤ self.new.spare }
    {
        drop_newest(&mut self.newest, scope);
        drop_settled(&mut self.settled, scope);
    }

    /// Drops the callbacks of all requests from an endpoint, and runs none.
    pub fn drop_endpoint(&mut self, end: EndId, id: u32)
        ensures others { self.new.callbacks ≡ map.retain_keys self.old.callbacks (λ key. not (is_of_endpoint end id key)) }
        ensures room { self.old.spare ≤ self.new.spare }
    {
        self.drop_scope(Scope::Endpoint { end, id });
    }

    /// Drops the callbacks of all requests from an end, and runs none.
    pub fn drop_end(&mut self, end: EndId)
        ensures others { self.new.callbacks ≡ map.retain_keys self.old.callbacks (λ key. not (is_of_end end key)) }
        ensures room { self.old.spare ≤ self.new.spare }
    {
        self.drop_scope(Scope::End(end));
    }

    /// Drops all callbacks, and runs none.
    pub fn drop_all(&mut self)
        ensures none { self.new.callbacks ≡ map.empty }
        ensures room { self.old.spare ≤ self.new.spare }
    {
        self.newest = None;
        self.settled.clear();
    }
}
