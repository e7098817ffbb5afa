//! Laws of bars and leads.

ghost use Rattle.fairview_marks.specs.Laws.{LeadsAreBounded, BarsFillTheClock};

/// In a lawful journal no queue leads another by more than its own greatest charge so far.
pub fn leads_are_bounded()
    ensures { LeadsAreBounded }
{}

/// The times of all bars together are the processor time of the core.
pub fn bars_fill_the_clock()
    ensures { BarsFillTheClock }
{}
