//! A worked row, and numbers that are told wrongly.

ghost use Rattle.judge_view.specs.BadSummaries.{SummariesAreRefused};
ghost use Rattle.judge_view.specs.Rows.{RowsHold};

/// What the definitions say of a worked row.
pub fn rows_hold()
    ensures { RowsHold }
{}

/// Numbers that are told wrongly of spans are refused.
pub fn summaries_are_refused()
    ensures { SummariesAreRefused }
{}
