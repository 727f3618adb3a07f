//! The snapshots that a session has registered, each under its name.
ghost use Rattle.std.specs.Prelude.{◌≡◌, not, IfSome, IfNone, Some, None};
ghost use Rattle.std.specs.List.{find, filter};
ghost use Rattle.tx_events.specs.Events.{same_name};

use crate::session::{RegisteredSnapshot, Session};
use tx_model::Name;

fn is_named(registered: &RegisteredSnapshot, name: &[u8]) -> bool
    ensures { result ≡ same_name registered.now.name name.now }
{
    registered.name.items() == name
}

/// The snapshot of this name.
fn find_registered<'a>(
    registered: &'a [RegisteredSnapshot],
    name: &[u8],
) -> Option<&'a RegisteredSnapshot>
    ensures found { IfSome result (λ k. find (λ x. same_name x.name name.now) registered.now ≡ Some k.now) }
    ensures none { IfNone result (find (λ x. same_name x.name name.now) registered.now ≡ None) }
{
    for k in registered {
        if is_named(k, name) {
            return Some(k);
        }
    }
    None
}

/// The session's snapshot of this name.
pub fn registered_as<'a>(session: &'a Session, name: &Name) -> Option<&'a RegisteredSnapshot>
    ensures found { IfSome result (λ k.
        find (λ x. same_name x.name name.now) session.now.registered.items ≡ Some k.now) }
    ensures none { IfNone result (find (λ x. same_name x.name name.now) session.now.registered.items ≡ None) }
{
    find_registered(session.registered.as_slice(), name.items())
}

/// Lets go of the snapshot of this name.
pub fn forget(registered: &mut Vec<RegisteredSnapshot>, name: &[u8])
    ensures { registered.new.items ≡ filter (λ k. not (same_name k.name name.now)) registered.old.items }
{
    registered.retain(|k| !is_named(k, name));
}
