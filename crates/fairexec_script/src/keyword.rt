//! The first words of a script's lines.

ghost use Rattle.std.specs.Prelude.{◌≡◌};
ghost use Rattle.fairexec_script.specs.Keywords as spec;

use base_jobs::MOST_POLLS;
use text_words::field::is_word;

/// What a line after the first does, by its first word.
#[derive(Clone, Copy)]
pub enum Keyword {
    /// `queue d w`
    Queue,
    /// `submit s d q POLL ..`
    Submit,
    /// `create s d w`
    Create,
    /// `shares s d q w`
    Shares,
    /// `close s d q MODE`
    Close,
    /// `closecore s d MODE`
    CloseCore,
    /// `wake s d a n`
    Wake,
    /// `deliver d s`
    Deliver,
    /// `turn d`
    Turn,
    /// `shut d s`
    Shut,
    /// `collect s d`
    Collect,
    /// `redeem s d n`
    Redeem,
    /// `detach s d n`
    Detach,
}

/// What a line that begins with the word does, if there is such a line.
pub fn keyword_of(word: &[u8]) -> Option<Keyword>
    ensures { result ≡ spec.keyword_of word.now }
{
    if is_word(word, "queue") {
        return Some(Keyword::Queue);
    }
    match order_keyword(word) {
        Some(keyword) => Some(keyword),
        None => step_keyword(word),
    }
}

/// What a line sends that begins with the word, if it sends an order.
fn order_keyword(word: &[u8]) -> Option<Keyword>
    ensures { result ≡ spec.order_keyword word.now }
{
    if is_word(word, "submit") {
        return Some(Keyword::Submit);
    }
    if is_word(word, "create") {
        return Some(Keyword::Create);
    }
    if is_word(word, "shares") {
        return Some(Keyword::Shares);
    }
    if is_word(word, "close") {
        return Some(Keyword::Close);
    }
    if is_word(word, "closecore") {
        return Some(Keyword::CloseCore);
    }
    if is_word(word, "wake") {
        return Some(Keyword::Wake);
    }
    None
}

/// What a line that begins with the word does, if it is a step that sends nothing.
fn step_keyword(word: &[u8]) -> Option<Keyword>
    ensures { result ≡ spec.step_keyword word.now }
{
    if is_word(word, "deliver") {
        return Some(Keyword::Deliver);
    }
    if is_word(word, "turn") {
        return Some(Keyword::Turn);
    }
    if is_word(word, "shut") {
        return Some(Keyword::Shut);
    }
    if is_word(word, "collect") {
        return Some(Keyword::Collect);
    }
    if is_word(word, "redeem") {
        return Some(Keyword::Redeem);
    }
    if is_word(word, "detach") {
        return Some(Keyword::Detach);
    }
    None
}

impl Keyword {
    /// Whether such a line may have that many words, its first one counted.
    pub fn takes(self, count: usize) -> bool
        ensures { result ≡ spec.takes self count }
    {
        match self {
            Keyword::Queue => count == 3,
            // Behind its first four words stands one for each poll.
            Keyword::Submit => count >= 5 && count <= 4 + MOST_POLLS,
            Keyword::Create => count == 4,
            Keyword::Shares => count == 5,
            Keyword::Close => count == 5,
            Keyword::CloseCore => count == 4,
            Keyword::Wake => count == 5,
            Keyword::Deliver => count == 3,
            Keyword::Turn => count == 2,
            Keyword::Shut => count == 3,
            Keyword::Collect => count == 3,
            Keyword::Redeem => count == 4,
            Keyword::Detach => count == 4,
        }
    }

    /// Whether it is a `queue` line.
    pub fn is_queue(self) -> bool
        ensures { result ≡ spec.is_queue self }
    {
        match self {
            Keyword::Queue => true,
            _ => false,
        }
    }
}
