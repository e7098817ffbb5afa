//! Command lines that are worked out.

ghost use Rattle.fairview_args.specs.Rows.{AreAsked, AreRefused};

/// These command lines are taken, and ask for this.
pub fn lines_are_asked()
    ensures { AreAsked }
{}

/// These command lines are not taken, for these faults.
pub fn lines_are_refused()
    ensures { AreRefused }
{}
