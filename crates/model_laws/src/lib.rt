//! Laws over the runs of the model of an executor, and worked rows: each is a public function whose contract is the law.
#![tactic(auto)]

ghost use Rattle.std.specs.Prelude.{ℕ};
ghost use Rattle.model_laws.specs.BurstRow.{TurnOfPolls};
ghost use Rattle.model_laws.specs.ClosedRow.{CoreCloses};
ghost use Rattle.model_laws.specs.Creations.{RunOfJobsIsDetermined};
ghost use Rattle.model_laws.specs.Determined.{AssemblyIsDetermined, OpeningIsDetermined, OwesOne, RunIsDetermined};
ghost use Rattle.model_laws.specs.Hollow.{EventsKeepLists, HollowIsRefused};
ghost use Rattle.model_laws.specs.OwedRuns.{RunsOwePolls};
ghost use Rattle.model_laws.specs.ScriptRuns.{ScriptRunIsDetermined};
ghost use Rattle.model_laws.specs.WorkedRows.{OneJob, TwoQueues, TwoSenders};

use base_jobs::Task;

/// Two runs of the same events from one world have one result, unless a core had no memory for a queue.
pub fn run_is_determined<J: Task<Out = u64>>()
    ensures run { OwesOne J.meaning → RunIsDetermined J.meaning }
    ensures assembly { OwesOne J.meaning → AssemblyIsDetermined J.meaning }
{}

/// The same, of script jobs.
pub fn script_run_is_determined()
    ensures { ScriptRunIsDetermined }
{}

/// Each poll that a journal of a run tells did what the order under its name says: it made the calls that its task asks for, with the
/// answers that the journals give, and the step and the told time are those of its task.
pub fn runs_owe_polls<J: Task<Out = u64>>()
    ensures { RunsOwePolls J.meaning }
{}

/// A world that has no journal, or no list of orders, isn't fresh.
pub fn hollow_world_is_refused<J: Task<Out = u64>>()
    ensures { HollowIsRefused J ℕ }
{}

/// Each event keeps how many journals and lists of orders there are.
pub fn events_keep_lists<J: Task<Out = u64>>()
    ensures { EventsKeepLists J.meaning }
{}

/// Two fresh worlds of the same numbers are one.
pub fn opening_is_determined<J: Task<Out = u64>>()
    ensures { OpeningIsDetermined J ℕ }
{}

/// Before its first event, a world and events that order no queue have one result.
pub fn run_of_jobs_is_determined<J: Task<Out = u64>>()
    ensures { RunOfJobsIsDetermined J.meaning }
{}

/// One job makes just its five notes.
pub fn one_job_makes_its_notes()
    ensures { OneJob }
{}

/// Two queues of 1000 and 500 shares share their core by these picks.
pub fn two_queues_share()
    ensures { TwoQueues }
{}

/// Two senders of one core are served in the order in which their jobs came.
pub fn two_senders_in_their_order()
    ensures { TwoSenders }
{}

/// A core that closes in mode `Return` hands its job back, and shuts each gate once, at its count.
pub fn a_core_closes()
    ensures { CoreCloses }
{}

/// If a turn may have four polls, a job of three polls has one pick, and its queue is charged once.
pub fn a_turn_has_several_polls()
    ensures { TurnOfPolls }
{}
