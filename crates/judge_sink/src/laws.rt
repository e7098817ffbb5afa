//! Laws on what is judged. Their bodies are empty: each contract is the law.

ghost use Rattle.judge_sink.specs.Bad.{AreNot, AreRefused};

/// Small journals with one thing wrong are refused.
pub fn bad_are_refused()
    ensures refused { AreRefused }
    ensures not { AreNot }
{}
