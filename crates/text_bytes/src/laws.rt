//! What is said of a fault can't be met by no try.

ghost use Rattle.text_bytes.specs.BadFaults.{StaleFaultsAreRefused};
ghost use Rattle.text_bytes.specs.Laws.{FaultsAreTried};

use crate::sink::ByteSink;

/// A sink that counts its tries has made each interrupted one that a fault is told by, and the one that failed. A call that tells a fault
/// has made that one itself.
pub fn faults_are_tried<S: ByteSink>()
    ensures { FaultsAreTried S.tries S.interrupts S.fails }
{}

/// The fault of the call before can't be told.
pub fn stale_faults_are_refused()
    ensures { StaleFaultsAreRefused }
{}
