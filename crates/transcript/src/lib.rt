// What a run of a script prints: a line for each line of the script, then the state of every store.
#![tactic(auto)]

ghost use Rattle.transcript.specs.Sessions.{OneTranscript};

pub mod fault;
pub mod report;
pub mod rows;
pub mod texts;

// A script prints one thing only: the grammar and the machine leave no choice.
pub fn transcripts_are_unique()
    ensures { OneTranscript }
{
    // The statement is the contract: there is nothing to do.
}
