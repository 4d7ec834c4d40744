//! What goes together: the requests of an end, or those of one endpoint there.

ghost use Rattle.std.specs.Prelude.{◌≡◌};
ghost use Rattle.response_map.specs.steps.Scopes.{has, least};

use crate::key::Key;
use mj_base::EndId;

/// The requests that a drop takes along.
#[derive(Clone, Copy)]
pub(crate) enum Scope {
    End(EndId),
    Endpoint { end: EndId, id: u32 },
}

impl Scope {
    /// The least request that it may have.
    pub(crate) fn least(self) -> Key
        ensures { result ≡ least self }
    {
        let (end, id) = match self {
            Scope::End(end) => (end, 0),
            Scope::Endpoint { end, id } => (end, id),
        };
        Key {
            end,
            id,
            request: 0,
        }
    }

    /// Whether it has a request.
    pub(crate) fn has(self, key: Key) -> bool
        ensures { result ≡ has self key }
    {
        match self {
            Scope::End(end) => key.end == end,
            Scope::Endpoint { end, id } => key.end == end && key.id == id,
        }
    }
}
