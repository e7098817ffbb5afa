//! What the index knows of a key, a bucket of keys, and the bucket of a name.
ghost use Rattle.std.specs.Prelude.{◌≡◌, ◌≤◌};
ghost use Rattle.base_words.specs.Names.{same_name};
ghost use Rattle.core_index.specs.Places as spec;

use base_words::{ActorNo, CoreNo, JobId};

/// What is known of a key.
#[derive(Clone, Copy)]
pub struct Row {
    /// The name of the job under this key, or of the last one that had it. If the key isn't filed, it says nothing.
    pub name: JobId,
    /// The next key of its bucket. At the last one it says nothing.
    pub next: u32,
    /// Whether the key stands in the bucket of this name.
    pub filed: bool,
    /// Whether a job has this key, which is filed then.
    pub taken: bool,
}

impl Row {
    /// A key that no job has.
    pub const VACANT: Row = Row {
        name: JobId {
            from: ActorNo(0),
            to: CoreNo(0),
            number: 0,
        },
        next: 0,
        filed: false,
        taken: false,
    };
}

/// The keys whose names fall into one bucket: the first one, and how many there are.
#[derive(Clone, Copy)]
pub struct Bucket {
    pub head: u32,
    pub count: u32,
}

impl Bucket {
    /// A bucket without a key.
    pub const EMPTY: Bucket = Bucket { head: 0, count: 0 };
}

/// The bucket of a name. Numbers that rise by one fall into buckets that do, and the higher bits of a number and its sender move them.
#[inline(always)]
pub fn place_of(name: &JobId, mask: u64) -> usize
    ensures value { result ≡ spec.place_of name.now mask }
    ensures within { result ≤ mask }
{
    let number = name.number;
    let sender = name.from.0;
    let mixed = number ^ (number >> 16) ^ (u64::from(sender) * 1024);
    (mixed & mask) as usize
}

/// Whether two names are one.
#[inline(always)]
pub fn is_same(one: &JobId, other: &JobId) -> bool
    ensures { result ≡ same_name one.now other.now }
{
    one.number == other.number && one.from.0 == other.from.0 && one.to.0 == other.to.0
}
