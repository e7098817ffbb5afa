//! A law that drafts and orders with one thing wrong are not within the limits.

ghost use Rattle.fairexec_script.specs.BadDrafts.{DraftsAreRefused};
ghost use Rattle.fairexec_script.specs.BadOrders.{OrdersAreRefused};

/// Each of these drafts and orders breaks a limit, or is counted wrong.
pub fn drafts()
    ensures drafts { DraftsAreRefused }
    ensures orders { OrdersAreRefused }
{}
