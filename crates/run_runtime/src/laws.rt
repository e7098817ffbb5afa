//! Laws over the definitions alone. Their bodies are empty: each contract is the law.

ghost use Rattle.run_runtime.specs.Laws.{SubmittedOrdersAreTold, ToldPollsAreOwed, UnowedPollsAreRefused, WrongAnswersAreRefused};
ghost use Rattle.run_runtime.specs.SinkLaws.{NeverRefusedNeverShort};

pub use actor_caller::laws::{
    closed_stays_closed, refused_orders_come_back, waits_redeem_once, waits_submit_once,
};
use base_jobs::Task;
use note_journal::Sink;

/// No finish tells of a submitted job an answer that isn't one of its task, also if nobody redeems it.
pub fn wrong_answers_are_refused<J: Task<Out = u64>>()
    ensures { WrongAnswersAreRefused J.meaning }
{}

/// Each poll that a finish tells of a submitted job is one that this job owes: what it posted and was answered, its step, and the time that it states.
pub fn told_polls_are_owed<J: Task<Out = u64>>()
    ensures { ToldPollsAreOwed J.meaning }
{}

/// No finish tells of a submitted job a poll that its task doesn't owe, such as a yield that it never makes.
pub fn unowed_polls_are_refused<J: Task<Out = u64>>()
    ensures { UnowedPollsAreRefused J.meaning }
{}

/// Each order that the caller submitted has an outcome in the journals of a finish, and it fits the order.
pub fn submitted_orders_are_told<J: Task<Out = u64>>()
    ensures { SubmittedOrdersAreTold J.meaning }
{}

/// If no sink refused, then no core closed by itself, and the sinks have all notes.
pub fn never_refused_never_short<J: Task<Out = u64>, S: Sink>()
    ensures { NeverRefusedNeverShort J.meaning S.has S.refused S.asks S.mark }
{}
