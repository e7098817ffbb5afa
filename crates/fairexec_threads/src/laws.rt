//! Laws over the definitions alone. Their bodies are empty: each contract is the law.

ghost use Rattle.fairexec_threads.specs.BadRuns.{RunsAreRefused};
ghost use Rattle.fairexec_threads.specs.Accepted.{OpenCoresRefuseNone};

/// No order is refused by a core whose journal tells of no closing. Runs, answers and runtimes with one thing wrong are none of a script.
pub fn hold()
    ensures open_cores_refuse_none { OpenCoresRefuseNone }
    ensures refused { RunsAreRefused }
{}
