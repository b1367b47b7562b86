// The theory of logs: `specs/` says what records mean, what each call leaves of the bytes, and what
// an image is; `proofs/` shows why the calls of a log follow the store's meaning. The functions are
// in the crate `log_store`.
#![tactic(auto)]

ghost use Rattle.log_theory.specs.Laws.{Deciding, Compacting, Behind, Imaging};

// The laws of logs. The function does nothing: its contract is the statement.
pub fn logs_obey_their_laws()
    ensures last_record_decides { Deciding }
    ensures compaction_keeps_the_last_puts { Compacting }
    ensures nothing_is_written_behind { Behind }
    ensures images_open_to_what_they_say { Imaging }
{
    // The statement is the contract: there is nothing to do.
}
