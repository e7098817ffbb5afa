//! Laws of why words ask for nothing.

ghost use Rattle.fair_args.specs.BadAnswers.{AnswersAreRefused};

/// No answer is right that tells of another fault than the words have.
pub fn answers_are_refused()
    ensures { AnswersAreRefused }
{}
