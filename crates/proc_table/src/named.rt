//! The live snapshots of one session, by their names.
ghost use Rattle.std.specs.Prelude.{◌≡◌, ℕ, List, None, Some, cond, IfOk, OnOk, OnErr};
ghost use Rattle.tx_events.specs.Events.{same_name};
ghost use Rattle.proc_table.specs.Lives.{xmin_under};

use std::alloc::Global;
use std::collections::BTreeMap;
use tx_events::{FullXid, Memory, Name};

/// A live snapshot of the session.
#[derive(Drop)]
struct NamedXmin {
    name: Name,
    xmin: FullXid,
}

impl NamedXmin {
    fn of(name: &Name, xmin: FullXid) -> NamedXmin
        ensures { result ≡ record { name = name.now; xmin = xmin } }
    {
        NamedXmin {
            name: name.same(),
            xmin,
        }
    }
}

/// The xmin of each live snapshot of one session, by its name. A session with one at a time asks for no memory.
#[derive(Drop)]
pub struct NamedXmins {
    /// The one that was taken last, while it is live.
    last: Option<NamedXmin>,
    /// The others, by the bytes of their names.
    earlier: BTreeMap<Vec<u8>, FullXid>,
}

impl NamedXmins {
    /// None.
    pub fn new(alloc: Global) -> NamedXmins
        ensures { (n : List ℕ) → xmin_under n result ≡ None }
    {
        NamedXmins {
            last: None,
            earlier: BTreeMap::new(alloc),
        }
    }

    /// The xmin under a name.
    pub fn get(&self, name: &Name) -> Option<FullXid>
        ensures { result ≡ xmin_under name.now self.now }
    {
        match &self.last {
            Some(last) => {
                if are_same(&last.name, name) {
                    Some(last.xmin)
                } else {
                    self.earlier.get(name.items()).copied()
                }
            }
            None => self.earlier.get(name.items()).copied(),
        }
    }

    /// Puts an xmin under a name. After want of memory all are as they were.
    pub fn put(&mut self, alloc: Global, name: &Name, xmin: FullXid) -> Result<(), Memory>
        ensures ok { OnOk result ((n : List ℕ) → xmin_under n self.new ≡ cond (same_name name.now n) (Some xmin) (xmin_under n self.old)) }
        ensures err { OnErr result ((n : List ℕ) → xmin_under n self.new ≡ xmin_under n self.old) }
    {
        if let Some(last) = &self.last {
            let key = bytes_of(alloc, &last.name)?;
            self.earlier.insert(key, last.xmin)?;
        }
        self.last = Some(NamedXmin::of(name, xmin));
        Ok(())
    }

    /// Takes out what is under a name, and gives its xmin. Takes no memory.
    pub fn take(&mut self, name: &Name) -> Option<FullXid>
        ensures xmin { result ≡ xmin_under name.now self.old }
        ensures left { (n : List ℕ) → xmin_under n self.new ≡ cond (same_name name.now n) None (xmin_under n self.old) }
    {
        let earlier = self.earlier.remove(name.items());
        match &self.last {
            Some(last) => {
                if are_same(&last.name, name) {
                    let xmin = last.xmin;
                    self.last = None;
                    Some(xmin)
                } else {
                    earlier
                }
            }
            None => earlier,
        }
    }
}

fn are_same(a: &Name, b: &Name) -> bool
    ensures { result ≡ same_name a.now b.now }
{
    a.items() == b.items()
}

fn bytes_of(alloc: Global, name: &Name) -> Result<Vec<u8>, Memory>
    ensures { IfOk result (λ v. v.items ≡ name.now) }
{
    let mut bytes = Vec::new(alloc);
    bytes.extend_from_slice(name.items())?;
    Ok(bytes)
}
