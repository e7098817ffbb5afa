//! Laws over the definitions alone.

ghost use Rattle.run_watch.specs.BadRows.{RowsAreRefused};
ghost use Rattle.run_watch.specs.Closings.{ClosingsAreTold, ClosingsStayTold};
ghost use Rattle.run_watch.specs.Laws.{NumbersNeverFall};

pub fn numbers_never_fall()
    ensures { NumbersNeverFall }
{}

pub fn closings_are_told()
    ensures { ClosingsAreTold }
{}

pub fn closings_stay_told()
    ensures { ClosingsStayTold }
{}

pub fn rows_are_refused()
    ensures { RowsAreRefused }
{}
