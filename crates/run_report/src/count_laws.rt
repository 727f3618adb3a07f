//! What the definitions say together. The functions do nothing; their contracts are the laws.
ghost use Rattle.run_report.specs.Counts.{CountsAreTheScripts, SummariesAreTheScripts};

/// In a lawful life of a generated script over a new log, of which no command was refused by a device, for a full log or
/// for want of memory, the history and the replies come to what the script's commands say.
pub fn counts_are_the_scripts()
    ensures { CountsAreTheScripts }
{}

/// So the line that tells the counts of such a life over a new log is that of the script, whatever order its threads took.
pub fn summaries_are_the_scripts()
    ensures { SummariesAreTheScripts }
{}
