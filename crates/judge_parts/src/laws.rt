//! What tells no sound journals. The bodies are empty: each contract is the law.

ghost use Rattle.judge_parts.specs.BadHouses.{HousesAreRefused};

/// Sources with bytes that are no part tell no sound journals.
pub fn bad_sources_are_refused()
    ensures { HousesAreRefused }
{}
