//! A bounded cache of values by seqnum, with the most recently used in front.
#![tactic(auto)]

ghost use Rattle.std.specs.Prelude.{◌≡◌, ◌≤◌, ◌↔◌, nat_eq, [], length, is_some, IfOk, IsTrue, OnOk, OnErr, option_copied};
ghost use Rattle.lru.specs.LruCache.{lru_cache, IsValid};
ghost use Rattle.aux_cache.specs.Entries.{value_at, moved_to_front, with_entry};

use lb_base::{Memory, Seqnum};
use lru::LruCache;
use std::alloc::Global;
use std::marker::Model;
use std::num::NonZeroUsize;

/// A cache of values by seqnum, of a bounded number of entries.
///
/// Contracts see it as its `entries`, each a seqnum and its value, the most recently used first, and as `cap`, the most entries
/// that it may have. There are at most so many, and no seqnum has two.
#[derive(Debug, Drop)]
pub struct Cache<V> {
    entries: LruCache<u64, V>,
}

impl<V> Model for Cache<V> {
    ghost use Rattle.std.specs.Prelude.{ℕ};
    ghost use Rattle.std.specs.Coded.{coded_ℕ};
    ghost use Rattle.lru.specs.LruCache.{LruCache as Entries, lru_cache_code};

    ghost Value = { Entries ℕ V };

    ghost coded = { lru_cache_code coded_ℕ V.code };

    ghost view = { λ c. c.entries };
}

impl<V> Cache<V> {
    /// An empty cache of at most `most` entries, which is at least 1; or `Memory`. No room is taken for entries to come.
    pub fn new(alloc: Global, most: usize) -> Result<Cache<V>, Memory>
        requires { 1 ≤ most }
        ensures { IfOk result (λ c. c ≡ lru_cache [] most) }
    {
        let most = NonZeroUsize::new(most).unwrap();
        let entries = LruCache::sparse(alloc, most)?;
        Ok(Cache { entries })
    }

    /// Whether there is an entry of the seqnum, which then is the most recently used. It takes no memory.
    pub fn get(&mut self, seq: Seqnum) -> bool
        ensures found { result ≡ is_some (value_at seq.0 self.old) }
        ensures order { self.new ≡ moved_to_front seq.0 self.old }
    {
        self.entries.promote(&seq.0)
    }

    /// The value of the seqnum, or None where it has no entry. The order stays. It takes no memory.
    pub fn peek(&self, seq: Seqnum) -> Option<&V>
        ensures { option_copied result ≡ value_at seq.0 self.now }
    {
        self.entries.peek(&seq.0)
    }

    /// How many entries there are: at most `cap`, and no two of one seqnum.
    pub fn len(&self) -> usize
        ensures len { result ≡ length self.now.entries }
        ensures valid { IsValid nat_eq self.now }
    {
        self.entries.len()
    }

    /// Whether there is no entry.
    pub fn is_empty(&self) -> bool
        ensures { IsTrue result ↔ (length self.now.entries ≡ 0) }
    {
        self.entries.is_empty()
    }
}

impl<V: Drop> Cache<V> {
    /// Sets the value of the seqnum, whose entry is then the most recently used. Where the seqnum had no entry and the cache is
    /// full, the least recently used entry goes. After `Memory` the cache is unchanged, and `value` is dropped.
    pub fn set(&mut self, seq: Seqnum, value: V) -> Result<(), Memory>
        ensures ok { OnOk result (self.new ≡ with_entry seq.0 value self.old) }
        ensures err { OnErr result (self.new ≡ self.old) }
    {
        self.entries.put(seq.0, value)?;
        Ok(())
    }

    /// Takes out each entry. It takes no memory.
    pub fn clear(&mut self)
        ensures { self.new ≡ lru_cache [] self.old.cap }
    {
        self.entries.clear();
    }
}
