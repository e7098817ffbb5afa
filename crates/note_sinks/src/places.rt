//! Places for what is known under names.

ghost use Rattle.std.specs.Prelude.{◌≡◌, OnErr, OnOk, None, []};
ghost use Rattle.note_facts.specs.Names.{known, SetsOne};
ghost use Rattle.note_sinks.specs.Naps.{Forgets};

use base_words::JobId;
use std::alloc::{AllocError, Global};
use std::collections::BTreeMap;
use std::marker::Model;

/// A place for a value under each of some names, which may be given back. A look-up and a change take as many steps as the digits of their count.
///
/// A contract sees the list of what is known (`known`).
#[derive(Drop)]
pub struct Places<V: Copy> {
    // By sender, receiver and number.
    values: BTreeMap<(u8, u8, u64), V>,
}

impl<V: Copy> Model for Places<V> {
    ghost use Rattle.note_facts.specs.Names.{Entries};

    ghost Value = { Entries V };

    ghost view = { λ places. places.values.entries };
}

fn parts(name: &JobId) -> (u8, u8, u64)
    ensures { result ≡ (name.now.from, name.now.to, name.now.number) }
{
    (name.from.0, name.to.0, name.number)
}

impl<V: Copy> Places<V> {
    /// There is no place yet.
    pub fn new(alloc: Global) -> Self
        ensures { result ≡ [] }
    {
        Places {
            values: BTreeMap::new(alloc),
        }
    }

    /// What is known under this name.
    pub fn get(&self, name: &JobId) -> Option<V>
        ensures { result ≡ known self.now name.now }
    {
        self.values.get(&parts(name)).copied()
    }

    /// From now on this is known under the name. Only where the name has no place it takes memory.
    pub fn set(&mut self, name: &JobId, value: V) -> Result<(), AllocError>
        ensures set { OnOk result (SetsOne self.old self.new name.now value) }
        ensures kept { OnErr result (self.new ≡ self.old) }
        ensures new { OnErr result (known self.old name.now ≡ None) }
    {
        match self.values.insert(parts(name), value) {
            Ok(_) => Ok(()),
            Err(_) => Err(AllocError),
        }
    }

    /// Gives the place of a name back.
    pub fn forget(&mut self, name: &JobId)
        ensures { Forgets self.old self.new name.now }
    {
        let _value = self.values.remove(&parts(name));
    }
}
