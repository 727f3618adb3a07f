ghost use Rattle.tx_core.specs.Laws.{Keeps, Opens, CommitRecordKeeps, AbortRecordKeeps, MultiRecordKeeps, CheckpointRecordKeeps, TruncateRecordKeeps, FlushKeeps, ForgetKeeps, LogFaultKeeps, IdEventKeeps, SubEventKeeps, UndoEventKeeps, CommitEventKeeps, AbortEventKeeps, SnapEventKeeps, SnapDropKeeps, OldestKeeps, AskKeeps, MadeKeeps, MultiEventKeeps, ChangesKeep, CommittedKeeps, SubCommittedKeeps, AbortedKeeps, ParentKeeps, ZeroKeeps, CutKeeps, SyncKeeps, FaultKeeps, RequestKeeps, LookKeeps, OldestPostKeeps, XminPostKeeps, HostsKeep};
ghost use Rattle.tx_core.specs.Consequences.{SessionsKnown, NeverAborted, CommittedAsked, AskedGiven, OldestRises, OldestShown, PostsGoOn, MultisAreLegal, NextGiven, ParentsKept, StatesKept, HorizonRises, SnapshotsHold, OpenKept, RaisesTold, FaultsCounted, FlushesRise, ClosedAborted, CommitsAreFlushed, DownStays, LogIsBehind, CheckpointsTell, RecordsGiven, RecordsShown, SubsBefore, TopsFirst};
ghost use Rattle.tx_core.specs.Held.{OpenRuns, PagesHeld};
ghost use Rattle.tx_core.specs.Nearness.{MadeNear};
ghost use Rattle.tx_core.specs.Pages.{PagesShow, ParentsShow, OffsetsShow, MembersShow};
ghost use Rattle.tx_core.specs.OwnMultis.{DoneStays, MakingStays, OwnMultisStay, PinsHold, PinsStay};
ghost use Rattle.tx_core.specs.Verdict.{Decides};

/// Any entry that its session may add keeps the engine invariant.
pub fn keeps()
    ensures { Keeps }
{}

/// The invariant holds before the first entry.
pub fn opens()
    ensures { Opens }
{}

/// A commit record is appended to the log (`XactLogCommitRecord` in `xact.c`).
pub fn commit_record()
    ensures { CommitRecordKeeps }
{}

/// An abort record is appended (`XactLogAbortRecord` in `xact.c`).
pub fn abort_record()
    ensures { AbortRecordKeeps }
{}

/// The record of a multixact is appended (`MultiXactIdCreateFromMembers` in `multixact.c`).
pub fn multi_record()
    ensures { MultiRecordKeeps }
{}

/// A checkpoint is appended (`CreateCheckPoint` in `xlog.c`).
pub fn checkpoint_record()
    ensures { CheckpointRecordKeeps }
{}

/// A truncation is logged (`WriteTruncateXlogRec` in `clog.c`, `WriteMTruncateXlogRec` in `multixact.c`).
pub fn truncate_record()
    ensures { TruncateRecordKeeps }
{}

/// The log is flushed (`XLogFlush` in `xlog.c`).
pub fn flush()
    ensures { FlushKeeps }
{}

/// Records before a checkpoint are forgotten.
pub fn forget()
    ensures { ForgetKeeps }
{}

/// The log's disk fails.
pub fn log_fault()
    ensures { LogFaultKeeps }
{}

/// A top-level id is given (`GetNewTransactionId` in `varsup.c`).
pub fn id_event()
    ensures { IdEventKeeps }
{}

/// A subtransaction's id is given (`AssignTransactionId` in `xact.c`).
pub fn sub_event()
    ensures { SubEventKeeps }
{}

/// A savepoint is rolled back (`XidCacheRemoveRunningXids` in `procarray.c`).
pub fn undo_event()
    ensures { UndoEventKeeps }
{}

/// A transaction commits (`ProcArrayEndTransaction` in `procarray.c`).
pub fn commit_event()
    ensures { CommitEventKeeps }
{}

/// A transaction aborts.
pub fn abort_event()
    ensures { AbortEventKeeps }
{}

/// A snapshot is taken (`GetSnapshotData` in `procarray.c`).
pub fn snap_event()
    ensures { SnapEventKeeps }
{}

/// A snapshot is dropped.
pub fn snap_drop()
    ensures { SnapDropKeeps }
{}

/// The oldest id is announced (`SetTransactionIdLimit` in `varsup.c`).
pub fn oldest_event()
    ensures { OldestKeeps }
{}

/// It is asked how a transaction stands.
pub fn ask_event()
    ensures { AskKeeps }
{}

/// The ProcArray is told that an id's pages are made.
pub fn made_pages()
    ensures { MadeKeeps }
{}

/// Something happens to a multixact.
pub fn multi_event()
    ensures { MultiEventKeeps }
{}

/// The oldest id is published (`oldestXid` of `TransamVariables` in `varsup.c`).
pub fn oldest_post()
    ensures { OldestPostKeeps }
{}

/// The oldest xmin is published (`GlobalVisState` in `procarray.c`).
pub fn xmin_post()
    ensures { XminPostKeeps }
{}

/// A bank is changed, for the session itself and for others that asked for it
/// (`TransactionGroupUpdateXidStatus` in `clog.c`).
pub fn changes()
    ensures { ChangesKeep }
{}

/// Ids of a commit become committed on one bank (`TransactionIdSetTreeStatus` in `clog.c`).
pub fn committed_states()
    ensures { CommittedKeeps }
{}

/// Subtransactions of a commit become sub-committed on one bank.
pub fn sub_committed_states()
    ensures { SubCommittedKeeps }
{}

/// Ids of an undo or an abort become aborted on one bank (`TransactionIdAbortTree` in `transam.c`).
pub fn aborted_states()
    ensures { AbortedKeeps }
{}

/// The parent of an id is recorded (`SubTransSetParent` in `subtrans.c`).
pub fn parent()
    ensures { ParentKeeps }
{}

/// A page is made (`ExtendCLOG` in `clog.c`, `ExtendSUBTRANS` in `subtrans.c`).
pub fn zero_page()
    ensures { ZeroKeeps }
{}

/// A bank is cut (`SimpleLruTruncate` in `slru.c`).
pub fn cut_pages()
    ensures { CutKeeps }
{}

/// A bank is synced (`SimpleLruWriteAll` in `slru.c`).
pub fn sync()
    ensures { SyncKeeps }
{}

/// A bank's disk fails, after some of the changes.
pub fn fault()
    ensures { FaultKeeps }
{}

/// A session asks another one for changes.
pub fn request()
    ensures { RequestKeeps }
{}

/// A value is only read.
pub fn look()
    ensures { LookKeeps }
{}

/// The life's host makes a checkpoint between the sessions' rounds (`CreateCheckPoint` in `xlog.c`): what it adds needs
/// what it needs of a session.
pub fn hosts_entries()
    ensures { HostsKeep }
{}

/// Each entry is of one of the life's sessions, or of its host, which makes checkpoints.
pub fn sessions_known()
    ensures { SessionsKnown }
{}

/// What a commit record names is never set aborted.
pub fn never_aborted()
    ensures { NeverAborted }
{}

/// An id of a commit record is set committed only where the record's session sets it, or asked for it.
pub fn committed_asked()
    ensures { CommittedAsked }
{}

/// A session sets or asks for states only of ids that it was given.
pub fn asked_given()
    ensures { AskedGiven }
{}

/// A snapshot, with the state and the parents read later, decides whether an id is visible at the snapshot.
pub fn visibility()
    ensures { Decides }
{}

/// The pages of pg_xact show the state that was set last, behind each beginning of their list: no page is made late.
pub fn pages_show()
    ensures { PagesShow }
{}

/// The pages of pg_subtrans show the parent that was set last.
pub fn parents_show()
    ensures { ParentsShow }
{}

/// The pages of offsets show the offset that was set last.
pub fn offsets_show()
    ensures { OffsetsShow }
{}

/// The pages of members show the member that was set last.
pub fn members_show()
    ensures { MembersShow }
{}

/// The announced oldest id never falls.
pub fn oldest_rises()
    ensures { OldestRises }
{}

/// A number that was published behind another is that of a place of the history no earlier.
pub fn posts_go_on()
    ensures { PostsGoOn }
{}

/// The published oldest id is at most one event behind.
pub fn oldest_shown()
    ensures { OldestShown }
{}

/// The multixacts' list is one legal history.
pub fn multis_are_legal()
    ensures { MultisAreLegal }
{}

/// While few ids and multixacts were given, the pages that were made are near the life's first ones, in all four
/// stores.
pub fn made_near()
    ensures { MadeNear }
{}

/// The log's next id is not past the next one of the history.
pub fn next_given()
    ensures { NextGiven }
{}

/// No page of pg_subtrans is cut that a live snapshot may ask for.
pub fn parents_kept()
    ensures { ParentsKept }
{}

/// No page of pg_xact is cut past the announced oldest id.
pub fn states_kept()
    ensures { StatesKept }
{}

/// The oldest xmin never falls.
pub fn horizon_rises()
    ensures { HorizonRises }
{}

/// An oldest xmin that was seen is not past the xmin of a snapshot that is live later.
pub fn snapshots_hold()
    ensures { SnapshotsHold }
{}

/// An id that is open is not before the announced oldest one.
pub fn open_kept()
    ensures { OpenKept }
{}

/// Where the pages told, a multixact that the life began with is announced with its offset (`find_multixact_start` in
/// `multixact.c`).
pub fn raises_told()
    ensures { RaisesTold }
{}

/// The count of faults of a lock's volume has risen by no less than the faults that the lock's list tells.
pub fn faults_counted()
    ensures { FaultsCounted }
{}

/// The last flush reached the furthest, and no further than the records.
pub fn flushes_rise()
    ensures { FlushesRise }
{}

/// A transaction that counts as committed has its commit record below the last flush (`RecordTransactionCommit` in
/// `xact.c` flushes before it ends the transaction).
pub fn commits_are_flushed()
    ensures { CommitsAreFlushed }
{}

/// What an undo or an abort closes was set aborted before its event (`RecordTransactionAbort` in `xact.c`).
pub fn closed_aborted()
    ensures { ClosedAborted }
{}

/// A top is committed only behind what makes its subtransactions on other pages sub-committed
/// (`TransactionIdSetTreeStatus` in `clog.c`).
pub fn subs_before()
    ensures { SubsBefore }
{}

/// A subtransaction on another page than its top is committed only behind the top (`TransactionIdSetTreeStatus` in
/// `clog.c`).
pub fn tops_first()
    ensures { TopsFirst }
{}

/// A log that is down has the same records from then on, and no more of them are flushed (a server would PANIC).
pub fn down_stays()
    ensures { DownStays }
{}

/// No page is cut that is still asked for: in each of the four stores the pages of the numbers in use are held.
pub fn pages_held()
    ensures { PagesHeld }
{}

/// An id that is open is from the oldest xmin on, and before the next one.
pub fn open_runs()
    ensures { OpenRuns }
{}

/// No counter of the log is past those of the ProcArray and the multixacts: so a checkpoint of these is not below the
/// log (`CreateCheckPoint` in `xlog.c`).
pub fn log_is_behind()
    ensures { LogIsBehind }
{}

/// The log's counters behind a checkpoint are the checkpoint's own.
pub fn checkpoints_tell()
    ensures { CheckpointsTell }
{}

/// What a session's record names was given to it.
pub fn records_given()
    ensures { RecordsGiven }
{}

/// What a commit record names was set committed, once its session's commit counts (a checkpoint waits for commits that are
/// in between: `DELAY_CHKPT_START` of `xact.c`).
pub fn records_shown()
    ensures { RecordsShown }
{}

/// What a session was given, pins and makes of multixacts it keeps while others go on.
pub fn own_multis_stay()
    ensures events { OwnMultisStay }
    ensures pins { PinsStay }
    ensures done { DoneStays }
    ensures making { MakingStays }
{}

/// What is pinned is a multixact from the announced oldest one on, and was given.
pub fn pins_hold()
    ensures { PinsHold }
{}
