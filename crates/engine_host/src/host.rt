//! The lock table of an engine, and its host.
ghost use Rattle.std.specs.Prelude.{◌≡◌, ◌↔◌, ◌<◌, ◌≤◌, ℕ, [], ◌∷◌, List, IfOk, IfErr, ◌+◌, ◌*◌, length};
ghost use Rattle.hall.specs.Calls.{StandFor, Joined, start_of, view};
ghost use Rattle.hall.specs.Rule.{Holds};
ghost use Rattle.tx_core.specs.Entries.{session_of};
ghost use Rattle.tx_core.specs.EngineInvariant.{EngineInvariant};
ghost use Rattle.engine_parts.specs.Calls.{MayRun};
ghost use Rattle.engine_parts.specs.Law.{writer_of};
ghost use Rattle.engine_parts.specs.Parts.{PartStands};
ghost use Rattle.engine_parts.specs.declared.session.Session.{Session};
ghost use Rattle.engine_host.specs.Opening.{AreParts};
ghost use Rattle.engine_host.specs.Hosts.{HasSeenNothing, HoldsAllBut, IsHost, IsNewSession, IsParked, OthersStayParked, opening, without, words_of};

use crate::cluster::{Cluster, Parts};
use disk_core::{LogDisk, PageDisk};
use engine_parts::{Caller, EngineLaw, Session, Stage};
use hall::{Hall, Opening, Pass};
use notes::Note;
use session_levels::Session as Levels;
use std::alloc::{AllocError, Global};
use tx_core::{Entry, Start};

/// Whoever lets sessions in at a lock table (the postmaster), with a permit of its own.
pub struct Host<L: LogDisk, P: PageDisk> {
    pub pass: Pass<EngineLaw<L, P>>,
    pub cluster: Cluster,
    /// What the life starts from, for contracts alone.
    pub start: Note<Start>,
}

// The published words as they are at first: the oldest id, the oldest xmin, and for each session's requests a 0.
fn first_words(alloc: Global, cluster: &Cluster) -> Result<Vec<u64>, AllocError>
    requires { cluster.now.sessions ≤ 64 }
    ensures { IfOk result (λ words. words.items ≡ words_of cluster.now) }
{
    let mut words = Vec::from_elem(alloc, 0u64, cluster.sessions as usize + 2)?;
    words[0] = cluster.base.oldest.number();
    words[1] = cluster.base.next.number();
    Ok(words)
}

// What the table is opened with: lists without entries.
fn opening_note(start: &Note<Start>) -> Note<Opening<Start, Entry>>
    ensures { result.value ≡ opening start.now.value }
{
    Note::by(start)
}

/// Makes the lock table over parts that stand for lists without entries, which its sessions' threads share, and its
/// host (`CreateSharedMemoryAndSemaphores` of `src/backend/storage/ipc/ipci.c`). After want of memory the parts come
/// back.
pub fn make_table<L: LogDisk, P: PageDisk>(
    alloc: Global,
    parts: Parts<L, P>,
) -> Result<(Hall<EngineLaw<L, P>>, Host<L, P>), Parts<L, P>>
    requires { AreParts parts }
    ensures start { IfOk result (λ r. start_of r.0 ≡ parts.start.value) }
    ensures cluster { IfOk result (λ r. r.1.cluster ≡ parts.cluster) }
    ensures host { IfOk result (λ r. IsHost r.0 r.1) }
    ensures unseen { IfOk result (λ r. HasSeenNothing r.1) }
    ensures names { IfOk result (λ r. HoldsAllBut r.1 []) }
    ensures parked { IfOk result (λ r. (n : ℕ) (s : Session) → n < parts.cluster.sessions → IsNewSession s
        → IsParked r.0 r.1 n s) }
    ensures refused { IfErr result (λ back. AreParts back) }
    ensures given { IfErr result (λ back. (back.cluster ≡ parts.cluster) × (back.start ≡ parts.start)
        × (back.locks.items ≡ parts.locks.items)) }
{
    let Parts {
        cluster,
        locks,
        start,
    } = parts;
    let words = match first_words(alloc, &cluster) {
        Ok(words) => words,
        Err(_) => {
            return Err(Parts {
                cluster,
                locks,
                start,
            });
        }
    };
    let from = opening_note(&start);
    match Hall::<EngineLaw<L, P>>::new(alloc, locks, words, cluster.sessions + 1, from) {
        Ok((hall, pass)) => Ok((
            hall,
            Host {
                pass,
                cluster,
                start,
            },
        )),
        Err((locks, _)) => Err(Parts {
            cluster,
            locks,
            start,
        }),
    }
}

/// A session that has run no command yet.
pub fn new_session(alloc: Global) -> Session
    ensures { IsNewSession result }
{
    Session {
        levels: Levels::new(alloc),
        stage: Stage::Clear,
        unlinked: None,
        making: None,
    }
}

/// Lets a session in, under its number (`InitProcess` of `src/backend/storage/lmgr/proc.c`): a new one, or one that was
/// taken back.
pub fn admit<L: LogDisk, P: PageDisk>(
    hall: &Hall<EngineLaw<L, P>>,
    host: &mut Host<L, P>,
    number: u32,
    session: Session,
) -> Caller<L, P>
    requires host { IsHost hall.now host.old }
    requires parked { IsParked hall.now host.old number session }
    ensures caller { MayRun hall.now host.old.cluster.banks result }
    ensures number { result.number ≡ number }
    ensures session { result.session ≡ session }
    ensures name { (n : ℕ) → Holds (view result.pass) n ↔ (n ≡ number) }
    ensures told { (view result.pass).seen ≡ (view host.old.pass).seen }
    ensures host { IsHost hall.now host.new }
    ensures seen { (view host.new.pass).seen ≡ (view host.old.pass).seen }
    ensures cluster { host.new.cluster ≡ host.old.cluster }
    ensures names { (away : List ℕ) → HoldsAllBut host.old away → HoldsAllBut host.new (number ∷ away) }
    ensures stay { OthersStayParked hall.now number host.old host.new }
{
    let Some(pass) = hall.split(&mut host.pass, number) else {
        unreachable!()
    };
    Caller {
        pass,
        number,
        session,
        holds: 0,
    }
}

/// Takes a session's permit back (`ProcKill` of `proc.c`) between two of its calls; its transaction and snapshots stay
/// as they are, and it may be let in again. The host learns the lists of one moment.
pub fn dismiss<L: LogDisk, P: PageDisk>(
    hall: &Hall<EngineLaw<L, P>>,
    host: &mut Host<L, P>,
    caller: Caller<L, P>,
) -> Session
    requires host { IsHost hall.now host.old }
    requires caller { MayRun hall.now host.old.cluster.banks caller }
    ensures session { result ≡ caller.session }
    ensures parked { IsParked hall.now host.new caller.number result }
    ensures host { IsHost hall.now host.new }
    ensures cluster { host.new.cluster ≡ host.old.cluster }
    ensures joined { Joined session_of writer_of EngineInvariant (start_of hall.now) (view host.old.pass)
        (view caller.pass) (view host.new.pass) }
    ensures names { (away : List ℕ) → HoldsAllBut host.old away
        → HoldsAllBut host.new (without caller.number away) }
    ensures stay { OthersStayParked hall.now caller.number host.old host.new }
{
    let Caller {
        pass,
        number: _,
        session,
        holds: _,
    } = caller;
    hall.join(&mut host.pass, pass);
    session
}

/// Gives the parts back, once all sessions are dismissed. They stand for the lists that the host has seen, which are
/// all that was done, and of which the engine invariant holds.
pub fn close<L: LogDisk, P: PageDisk>(hall: Hall<EngineLaw<L, P>>, host: Host<L, P>) -> Parts<L, P>
    requires host { IsHost hall host }
    requires all { HoldsAllBut host [] }
    ensures cluster { result.cluster ≡ host.cluster }
    ensures start { result.start.value ≡ start_of hall }
    ensures kept { EngineInvariant (start_of hall) (view host.pass).seen }
    ensures count { length result.locks.items ≡ 3 + 4 * host.cluster.banks }
    ensures stand { StandFor PartStands (start_of hall) result.locks.items (view host.pass).seen }
{
    let Host {
        pass,
        cluster,
        start,
    } = host;
    let locks = hall.close_with(pass);
    Parts {
        cluster,
        locks,
        start,
    }
}
