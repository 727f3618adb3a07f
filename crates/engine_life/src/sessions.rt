//! The sessions of a life before its first round.
ghost use Rattle.std.specs.Prelude.{◌≡◌, [], All, IfOk, length};
ghost use Rattle.engine_host.specs.Hosts.{IsNewSession};

use engine_host::new_session;
use engine_parts::Session;
use std::alloc::Global;
use tx_model::Memory;

/// So many sessions that have run no command yet. Only memory may be wanting.
pub fn new_sessions(alloc: Global, count: u32) -> Result<Vec<Session>, Memory>
    ensures count { IfOk result (λ all. length all.items ≡ count) }
    ensures each { IfOk result (λ all. All IsNewSession all.items) }
{
    let mut all = Vec::with_capacity(alloc, count as usize)?;
    for _ in 0..count {
        all.push_reserved(new_session(alloc));
    }
    Ok(all)
}
