ghost use Rattle.session_promise.specs.Causes.{FaultsAreTold};
ghost use Rattle.session_promise.specs.CheckpointLaws.{CheckpointGoesOn, CheckpointsBegin, CheckpointsStayThroughDump, CheckpointsStayThroughRound, DumpsStayThroughCheckpoint, SoFarThroughCheckpoint};
ghost use Rattle.session_promise.specs.Closing.{LevelsBoundIds, LinesBoundMultis, PromisesMakeLife, PromisesMakeLog, PromisesMakeMultis, PromisesMakeSteps};
ghost use Rattle.session_promise.specs.MultiGrowth.{MultiAnswersStay};
ghost use Rattle.session_promise.specs.Promise.{PromiseBegins, PromiseGoesOn, PromiseStays};
ghost use Rattle.session_promise.specs.Rounds.{PartsMakeRound};
ghost use Rattle.session_promise.specs.SoFar.{PromiseThroughRound, SoFarBegins, SoFarEnds, SoFarGoesOn};

/// What a command on multixacts may be answered it may be answered in longer lists and over wider spans too, where the
/// events that are more are of other sessions or of later commands.
pub fn multi_answers_stay()
    ensures { MultiAnswersStay }
{}

/// A session that has done nothing promises of no line.
pub fn promise_begins()
    ensures { PromiseBegins }
{}

/// While others go on, a session promises the same.
pub fn promise_stays()
    ensures { PromiseStays }
{}

/// Behind its next command a session promises of one line more.
pub fn promise_goes_on()
    ensures { PromiseGoesOn }
{}

/// Behind a round a session promises of its lines there.
pub fn promise_through_round()
    ensures { PromiseThroughRound }
{}

/// Before the first round all sessions promise of no line.
pub fn so_far_begins()
    ensures { SoFarBegins }
{}

/// Behind a round all sessions promise of one round more.
pub fn so_far_goes_on()
    ensures { SoFarGoesOn }
{}

/// Behind the last round the life may be over.
pub fn so_far_ends()
    ensures { SoFarEnds }
{}

/// The lines of a round's sessions, one session after another, are the round's lines in the report's order.
pub fn parts_make_round()
    ensures { PartsMakeRound }
{}

/// A life gives no more ids than its commands made levels.
pub fn levels_bound_ids()
    ensures { LevelsBoundIds }
{}

/// A life gives no more multixacts than its commands asked for.
pub fn lines_bound_multis()
    ensures { LinesBoundMultis }
{}

/// The promises of all sessions make lawful lines, round by round.
pub fn promises_make_steps()
    ensures { PromisesMakeSteps }
{}

/// And lawful multixacts.
pub fn promises_make_multis()
    ensures { PromisesMakeMultis }
{}

/// And a lawful log.
pub fn promises_make_log()
    ensures { PromisesMakeLog }
{}

/// And a lawful life.
pub fn promises_make_life()
    ensures { PromisesMakeLife }
{}

/// And no session was told of more faults of a volume than its count rose by.
pub fn faults_are_told()
    ensures { FaultsAreTold }
{}

/// Before the first round no checkpoint was told.
pub fn checkpoints_begin()
    ensures { CheckpointsBegin }
{}

/// The checkpoints that were told stay, behind a round.
pub fn checkpoints_stay_through_round()
    ensures { CheckpointsStayThroughRound }
{}

/// And behind a dump.
pub fn checkpoints_stay_through_dump()
    ensures { CheckpointsStayThroughDump }
{}

/// Behind a checkpoint all sessions promise the same.
pub fn so_far_through_checkpoint()
    ensures { SoFarThroughCheckpoint }
{}

/// It is told with the checkpoints before it.
pub fn checkpoint_goes_on()
    ensures { CheckpointGoesOn }
{}

/// The dumps that were told stay, behind a checkpoint.
pub fn dumps_stay_through_checkpoint()
    ensures { DumpsStayThroughCheckpoint }
{}
