//! The first words of notes, by who writes them and of what.

ghost use Rattle.std.specs.Prelude.{◌≡◌};
ghost use Rattle.text_journal.specs.Kinds as spec;

use text_words::field::is_word;

/// A note that the sender of its submission writes.
#[derive(Clone, Copy)]
pub enum OwnKind {
    Sent,
    Collected,
    Redeemed,
    Detached,
}

/// A note that the receiver of its submission writes.
#[derive(Clone, Copy)]
pub enum ReceivedKind {
    Took,
    Back,
    Answered,
    Woken,
    Start,
    Resume,
    Yield,
    Park,
    Stayed,
    Done,
    Returned,
}

/// A note of a core that names no submission.
#[derive(Clone, Copy)]
pub enum CoreKind {
    Created,
    SharesSet,
    QueueClosed,
    CoreClosed,
    Pick,
    Turned,
    Shut,
}

#[tactic(auto, unfolding(crate::specs::Kinds::own_kind_of))]
pub(crate) fn own_kind_of(word: &[u8]) -> Option<OwnKind>
    ensures { result ≡ spec.own_kind_of word.now }
{
    if is_word(word, "sent") {
        return Some(OwnKind::Sent);
    }
    if is_word(word, "collected") {
        return Some(OwnKind::Collected);
    }
    if is_word(word, "redeemed") {
        return Some(OwnKind::Redeemed);
    }
    if is_word(word, "detached") {
        return Some(OwnKind::Detached);
    }
    None
}

#[tactic(auto, unfolding(crate::specs::Kinds::received_kind_of))]
pub(crate) fn received_kind_of(word: &[u8]) -> Option<ReceivedKind>
    ensures { result ≡ spec.received_kind_of word.now }
{
    if is_word(word, "took") {
        return Some(ReceivedKind::Took);
    }
    if is_word(word, "back") {
        return Some(ReceivedKind::Back);
    }
    if is_word(word, "answered") {
        return Some(ReceivedKind::Answered);
    }
    if is_word(word, "woken") {
        return Some(ReceivedKind::Woken);
    }
    if is_word(word, "start") {
        return Some(ReceivedKind::Start);
    }
    if is_word(word, "resume") {
        return Some(ReceivedKind::Resume);
    }
    if is_word(word, "yield") {
        return Some(ReceivedKind::Yield);
    }
    if is_word(word, "park") {
        return Some(ReceivedKind::Park);
    }
    if is_word(word, "stayed") {
        return Some(ReceivedKind::Stayed);
    }
    if is_word(word, "done") {
        return Some(ReceivedKind::Done);
    }
    if is_word(word, "returned") {
        return Some(ReceivedKind::Returned);
    }
    None
}

#[tactic(auto, unfolding(crate::specs::Kinds::core_kind_of))]
pub(crate) fn core_kind_of(word: &[u8]) -> Option<CoreKind>
    ensures { result ≡ spec.core_kind_of word.now }
{
    if is_word(word, "queue") {
        return Some(CoreKind::Created);
    }
    if is_word(word, "shares") {
        return Some(CoreKind::SharesSet);
    }
    if is_word(word, "closed") {
        return Some(CoreKind::QueueClosed);
    }
    if is_word(word, "coreclosed") {
        return Some(CoreKind::CoreClosed);
    }
    if is_word(word, "pick") {
        return Some(CoreKind::Pick);
    }
    if is_word(word, "turned") {
        return Some(CoreKind::Turned);
    }
    if is_word(word, "shut") {
        return Some(CoreKind::Shut);
    }
    None
}
