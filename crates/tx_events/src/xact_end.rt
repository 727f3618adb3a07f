//! How a transaction ends: its event under the ProcArray's lock, and its record in the log.
ghost use Rattle.std.specs.Prelude.{◌≡◌};
ghost use Rattle.tx_events.specs.XactEnds.{end_event, end_record};

use crate::FullXid;
use crate::by_words::ByWords;
use crate::event::{By, Event};
use crate::record::Rec;
use crate::sequence::IdList;

/// How a transaction ends (`XACT_EVENT_COMMIT` and `XACT_EVENT_ABORT` of `src/include/access/xact.h`).
#[derive(Clone, Copy, Debug, PartialEq, Eq)]
pub enum XactEnd {
    Commit,
    Abort,
}

impl XactEnd {
    /// The event of the transaction of this top.
    pub fn event(self, by: By, top: FullXid) -> Event
        ensures { result ≡ end_event self by top }
    {
        let by = ByWords::of(by);
        match self {
            XactEnd::Commit => Event::Commit { by, top },
            XactEnd::Abort => Event::Abort { by, top },
        }
    }

    /// Its record, with the open subtransactions (`XLOG_XACT_COMMIT` and `XLOG_XACT_ABORT`).
    pub fn record(self, top: FullXid, subs: IdList) -> Rec
        ensures { result ≡ end_record self top subs }
    {
        match self {
            XactEnd::Commit => Rec::Commit { top, subs },
            XactEnd::Abort => Rec::Abort { top, subs },
        }
    }
}
