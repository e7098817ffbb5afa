//! Laws over the definitions alone.

ghost use Rattle.note_stats.specs.Laws.{WaitingIsLine};

pub fn waiting_is_line()
    ensures { WaitingIsLine }
{}
