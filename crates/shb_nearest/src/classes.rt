//! Accesses by class: of a variable at a location by one thread, of one kind.

ghost use Rattle.std.specs.Prelude.{◌≡◌, [], IfOk, unwrap_or};
ghost use Rattle.shb_nearest.specs.Classes.{HasPut, is_newest_in, newest_in};

use indexmap::IndexMap;
use shb_io::NoMemory;
use shb_lines::HashKeys;
use std::alloc::Global;
use std::random::RandomSource;

/// What accesses have in common of which the newest one alone is kept.
#[derive(Clone, Copy, PartialEq, Eq, Hash)]
pub struct Class {
    pub variable: u32,
    pub location: u32,
    pub thread: u32,
    pub writes: bool,
}

/// Accesses of classes, of each class the one that was put last. The table is hashed under two random keys.
pub struct Classes {
    pub newest: IndexMap<Class, u32, HashKeys>,
    keys: HashKeys,
}

// By hand: a derived one stands in each function that drops it, with a step for each part of the table.
impl Drop for Classes {
    fn drop(self) {
        let Classes { newest: _, keys: _ } = self;
    }
}

impl Classes {
    /// No class.
    pub fn new<R: RandomSource>(rt: &R, alloc: Global) -> Result<Classes, NoMemory>
        ensures { IfOk result (λ classes. classes.newest.entries ≡ []) }
    {
        let keys = HashKeys::new(rt)?;
        Ok(Classes {
            newest: IndexMap::with_hasher(alloc, keys),
            keys,
        })
    }

    /// No class, under the same keys.
    pub fn emptied(&self, alloc: Global) -> Classes
        ensures { result.newest.entries ≡ [] }
    {
        Classes {
            newest: IndexMap::with_hasher(alloc, self.keys),
            keys: self.keys,
        }
    }

    /// The keys of the table.
    pub fn keys(&self) -> HashKeys {
        self.keys
    }

    /// Puts an access of a class, and answers the one that the table had of it, or 0 where it had none.
    pub fn put(&mut self, class: Class, event: u32) -> Result<u32, NoMemory>
        ensures before { IfOk result (λ before. before ≡ unwrap_or (newest_in self.old.newest.entries class) 0) }
        ensures updates { IfOk result (λ before. HasPut self.old.newest.entries self.new.newest.entries class event) }
    {
        let before = self.newest.insert(class, event)?;
        Ok(before.unwrap_or(0))
    }

    /// The access of a class that was put last, or 0 where there is none.
    pub fn last(&self, class: Class) -> u32 {
        self.newest.get(&class).copied().unwrap_or(0)
    }

    /// Whether this access of its class was put last.
    pub fn is_newest(&self, class: Class, event: u32) -> bool
        ensures { result ≡ is_newest_in self.now.newest.entries class event }
    {
        match self.newest.get(&class) {
            Some(newest) => *newest == event,
            None => false,
        }
    }
}
