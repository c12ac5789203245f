//! The law of `ReadyCache`.
ghost use Rattle.tower_laws.specs.ReadyCache.{NoKeyIsLost, PushedIsThere};

use tower_base::service::Service;

/// States that no key is lost: a key with an endpoint, ready, or pending and not cancelled, has one after
/// any calls of the cache, unless one of them evicts the key or returns the failure of its endpoint. A key
/// for which a push found room has one.
pub fn law<K: Eq, S: Service<Req>, Req>()
    ensures lost { NoKeyIsLost K.eq S.Service }
    ensures pushed { PushedIsThere K.eq S.Service }
{}
