//! The newest callback, which isn't with the others yet.

ghost use Rattle.std.specs.Prelude.{◌≡◌, ◌≢◌, None, OnSome, IfSome, IfNone};
ghost use Rattle.response_map.specs.steps.Scopes.{kept};

use crate::key::Key;
use crate::scope::Scope;

/// Takes the newest callback where it is that of a request.
pub(crate) fn take_newest<C: Drop>(newest: &mut Option<(Key, C)>, key: Key) -> Option<C>
    ensures found { IfSome result (λ callback. newest.old ≡ Some (key, callback)) }
    ensures taken { OnSome result (newest.new ≡ None) }
    ensures other { IfNone result (IfSome newest.old (λ entry. entry.0 ≢ key)) }
    ensures same { IfNone result (newest.new ≡ newest.old) }
{
    let (newest_key, callback) = newest.take()?;
    if newest_key == key {
        return Some(callback);
    }
    *newest = Some((newest_key, callback));
    None
}

/// Drops the newest callback where a scope has its request.
pub(crate) fn drop_newest<C: Drop>(newest: &mut Option<(Key, C)>, scope: Scope)
    ensures { newest.new ≡ kept newest.old scope }
{
    if let Some((key, _callback)) = newest
        && scope.has(*key)
    {
        *newest = None;
    }
}
