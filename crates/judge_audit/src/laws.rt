//! The journals determine what an audit names.

ghost use Rattle.judge_audit.specs.Verdicts.{OneRuleIsFirst, OneVerdictHolds};

/// No two rules are the first that is broken.
pub fn one_rule_is_first()
    ensures { OneRuleIsFirst }
{}

/// Of spelled journals there is one verdict: the rule, the actor and the line of the first fault, or that they are sound.
pub fn one_verdict_holds()
    ensures { OneVerdictHolds }
{}
