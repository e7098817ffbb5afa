//! Laws over the definitions.

ghost use Rattle.fairexec_run.specs.BadOutputs.{OutputsAreRefused};
ghost use Rattle.fairexec_run.specs.OneOutput.{OutputIsDetermined, OutputOfJobsIsDetermined, TextHasOneOutput};

/// Two runs that are done over one text with the same flags wrote one output, and each script has one output, unless a core had no memory for a
/// queue that the script orders. A script that orders no queue by an event has one output. Outputs, events and worlds with one thing wrong
/// are none of a script.
pub fn text_has_one_output()
    ensures text { TextHasOneOutput }
    ensures script { OutputIsDetermined }
    ensures jobs { OutputOfJobsIsDetermined }
    ensures refused { OutputsAreRefused }
{}
