ghost use Rattle.engine_parts.specs.Answers.{AnswersStay};
ghost use Rattle.engine_parts.specs.Begins.{CrashBegins, LogBegins};
ghost use Rattle.engine_parts.specs.New.{NewMayCall};
ghost use Rattle.engine_parts.specs.Sessions.{CallsStay};

use disk_core::LogDisk;

/// What a call was answered stays lawful while others go on, and so it is in the lists at the end.
pub fn answers_stay()
    ensures { AnswersStay }
{}

/// A session that has done nothing may call, by its own pass, whatever others have done.
pub fn new_may_call()
    ensures { NewMayCall }
{}

/// A session that may call may call later too, while others go on.
pub fn calls_stay()
    ensures { CallsStay }
{}

/// What a crash leaves of the log's volume begins with the checkpoint before which the log was last to be forgotten, or with
/// one other; with that checkpoint alone where a record behind it is flushed. So the volume reads behind the crash.
pub fn log_begins<L: LogDisk>()
    ensures stands { LogBegins L.LogDisk }
    ensures crashed { CrashBegins L.LogDisk }
{}
