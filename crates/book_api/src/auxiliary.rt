//! Auxiliary data of the records that an engine sees.
ghost use Rattle.std.specs.Prelude.{◌≡◌, is_some, IfOk, OnOk, OnErr};
ghost use Rattle.std.specs.Option.{option_copied, option_map_or};
ghost use Rattle.boki_machine.specs.Machine.{aux_at, move_to_front};
ghost use Rattle.book_api.specs.Books.{HasEngine, aux_of, IsSet, after_get};
ghost use Rattle.book_api.specs.Inside.{aux_in};

use crate::book::Book;
use aux_cache::Cache;
use lb_base::{List, Memory, Seqnum};

impl Book {
    /// Sets the engine's auxiliary data of a record, which are then the most recently used. Of more than 64 records those least
    /// recently used go. False comes exactly where the engine's position doesn't cover the seqnum; then, as after `Memory`, the
    /// book is as before.
    pub fn set_aux(&mut self, engine: u32, seq: Seqnum, bytes: &[u8]) -> Result<bool, Memory>
        requires { HasEngine engine self.old }
        ensures ok { IfOk result (IsSet engine seq.0 bytes.now self.old self.new) }
        ensures err { OnErr result (self.new ≡ self.old) }
    {
        if seq.0 == 0 || seq.0 > self.position(engine) {
            return Ok(false);
        }
        let bytes = List::from_slice(self.alloc, bytes)?;
        let cache = &mut self.aux[(engine - 1) as usize];
        put(cache, seq, bytes)?;
        Ok(true)
    }

    /// Whether the engine has auxiliary data of the record, which then are the most recently used. It takes no memory.
    pub fn get_aux(&mut self, engine: u32, seq: Seqnum) -> bool
        requires { HasEngine engine self.old }
        ensures found { result ≡ is_some (aux_at seq.0 (aux_of self.old engine)) }
        ensures after { self.new ≡ after_get engine seq.0 self.old }
    {
        let cache = &mut self.aux[(engine - 1) as usize];
        touch(cache, seq)
    }

    /// The engine's auxiliary data of the record, or None where it has none. It takes no memory.
    pub fn aux(&self, engine: u32, seq: Seqnum) -> Option<&List<u8>>
        requires { HasEngine engine self.now }
        ensures { option_copied result ≡ aux_at seq.0 (aux_of self.now engine) }
    {
        let cache = &self.aux[(engine - 1) as usize];
        cache.peek(seq)
    }
}

// Puts an entry in front of a cache of 64.
fn put(cache: &mut Cache<List<u8>>, seq: Seqnum, bytes: List<u8>) -> Result<(), Memory>
    requires { cache.old.cap ≡ 64 }
    ensures ok { OnOk result (aux_in cache.new ≡ move_to_front seq.0 bytes (aux_in cache.old)) }
    ensures err { OnErr result (cache.new ≡ cache.old) }
    ensures cap { cache.new.cap ≡ 64 }
{
    // It has at most 64 entries, and no two of one seqnum.
    let _count = cache.len();
    cache.set(seq, bytes)
}

// Brings the entry of the seqnum to the front of a cache of 64, where it has one.
fn touch(cache: &mut Cache<List<u8>>, seq: Seqnum) -> bool
    requires { cache.old.cap ≡ 64 }
    ensures found { result ≡ is_some (aux_at seq.0 (aux_in cache.old)) }
    ensures after { aux_in cache.new ≡ option_map_or (λ bytes. move_to_front seq.0 bytes (aux_in cache.old)) (aux_at seq.0 (aux_in cache.old)) (aux_in cache.old) }
    ensures cap { cache.new.cap ≡ 64 }
{
    // It has at most 64 entries, and no two of one seqnum.
    let _count = cache.len();
    cache.get(seq)
}
