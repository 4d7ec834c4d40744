//! Callbacks in the order of their requests.

ghost use Rattle.std.specs.Prelude.{◌≡◌, None, not, IsSome, IsTrue, IfSome, IfNone};
ghost use Rattle.std.specs.FinMap as map;
ghost use Rattle.response_map.specs.declared.key.Key.{Key as key};
ghost use Rattle.response_map.specs.Contents.{callbacks_of};
ghost use Rattle.response_map.specs.steps.Scopes.{has};

use crate::key::Key;
use crate::scope::Scope;
use std::collections::BTreeMap;

/// The first request of a scope that has a callback.
fn first_of<C>(callbacks: &BTreeMap<Key, C>, scope: Scope) -> Option<Key>
    ensures found { IfSome result (λ x. IsTrue (has scope x) × IsSome (map.get (callbacks_of callbacks.now) x)) }
    ensures none { IfNone result ((x : key) → IsTrue (has scope x) → map.get (callbacks_of callbacks.now) x ≡ None) }
{
    let (key, _callback) = callbacks.range(scope.least()..).next()?;
    if scope.has(*key) { Some(*key) } else { None }
}

/// Drops the callbacks of a scope. The time grows with their number, and with that of the others only by
/// its logarithm.
pub(crate) fn drop_settled<C: Drop>(callbacks: &mut BTreeMap<Key, C>, scope: Scope)
    ensures { callbacks_of callbacks.new ≡ map.retain_keys (callbacks_of callbacks.old) (λ x. not (has scope x)) }
{
    while let Some(key) = first_of(callbacks, scope) {
        callbacks.remove(&key);
    }
}
