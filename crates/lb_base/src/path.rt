//! Paths: the names of invocations.

ghost use Rattle.std.specs.Prelude.{◌≡◌, ◌==◌, ℕ, ◌≤◌, Some, refl, length, ◌∷◌};
ghost use Rattle.lb_base.specs.Path.{IsPath, request_path, child_path, path_of};
ghost use Rattle.std.specs.Cmp;
ghost use Rattle.std.specs.Cmp.Lexicographic.{pointwise, slice_cmp, nat_list_eq_equiv, nat_list_cmp_total, texts_ties, texts_po};
ghost use Rattle.std.specs.Cmp.Rules.{hashing};
ghost use Rattle.std.specs.Hash as fed;
ghost use Rattle.std.specs.Ordering.{nat_cmp};
ghost use Rattle.std.proofs.Common.{rules};

use std::cmp::Ordering;
use std::hash::{Hash, Hasher};
use std::marker::Model;

/// The greatest number of a request.
const REQUESTS: u32 = 1_048_575;

/// The greatest ordinal of a spawn.
const ORDINALS: u32 = 4_095;

/// The path of an invocation, which contracts see as the list of its numbers.
///
/// It has 1 to 4 numbers: a request, from 1 to 1,048,575, and then the ordinal of each spawn, from 1 to 4,095.
/// Paths are ordered by their numbers from the left, a prefix first.
#[derive(Clone, Copy, Debug)]
pub struct Path {
    parts: [u32; 4],
    len: u8,
}

impl Model for Path {
    ghost use Rattle.std.specs.Prelude.{List, ℕ, ◌≡◌, length, take};

    ghost Value = { List ℕ };

    ghost use Rattle.lb_base.specs.PathFields.{numbers, fields, IsSound, fields-numbers};

    ghost view = { numbers };

    ghost invariant = { IsSound };

    ghost inverse = { fields };

    ghost inverse_ok = { fields-numbers };
}

impl Path {
    /// The path of a request, or None where the number is 0 or above 1,048,575.
    pub fn request(n: u32) -> Option<Path>
        ensures { result ≡ request_path n }
    {
        if n == 0 || n > REQUESTS {
            return None;
        }
        Some(Path {
            parts: [n, 0, 0, 0],
            len: 1,
        })
    }

    /// The path of a spawn, or None where the ordinal is 0 or above 4,095, or the path has 4 numbers.
    pub fn child(self, ordinal: u32) -> Option<Path>
        ensures { result ≡ child_path self ordinal }
    {
        if ordinal == 0 || ordinal > ORDINALS || self.len > 3 {
            return None;
        }
        let mut parts = self.parts;
        parts[self.len as usize] = ordinal;
        Some(Path {
            parts,
            len: self.len + 1,
        })
    }

    /// The path with these numbers, or None where they are none of a path.
    pub fn from_parts(numbers: &[u32]) -> Option<Path>
        ensures { result ≡ path_of numbers.now }
    {
        let (first, rest) = numbers.split_first()?;
        let mut path = Path::request(*first)?;
        'ordinals: for n in rest {
            path = path.child(*n)?;
        }
        Some(path)
    }

    /// The numbers, from the left.
    pub fn parts(&self) -> &[u32]
        ensures value { result.now ≡ self.now }
        ensures path { IsPath self.now }
    {
        &self.parts[..self.len as usize]
    }

    /// The request's number, and the ordinals behind it.
    pub fn split(&self) -> (u32, &[u32])
        ensures { self.now ≡ result.0 ∷ result.1.now }
    {
        (self.parts[0], &self.parts[1..self.len as usize])
    }

    /// How many numbers it has, from 1 to 4.
    pub fn depth(&self) -> usize
        ensures value { result ≡ length self.now }
        ensures path { IsPath self.now }
    {
        self.len as usize
    }
}

impl PartialEq for Path {
    ghost eq = { pointwise ◌==◌ };

    ghost laws = { Cmp.partial_equiv_from_equiv nat_list_eq_equiv };

    fn eq(&self, other: &Path) -> bool {
        self.parts() == other.parts()
    }
}

impl Eq for Path {
    ghost laws = { nat_list_eq_equiv };
}

impl PartialOrd for Path {
    ghost partial_cmp = { λ x y. Some (slice_cmp nat_cmp x y) };

    ghost laws = { texts_po };

    fn partial_cmp(&self, other: &Path) -> Option<Ordering> {
        Some(self.cmp(other))
    }
}

impl Ord for Path {
    ghost cmp = { slice_cmp nat_cmp };

    ghost total = { nat_list_cmp_total };

    ghost matches_partial_cmp = { λ _ _. refl };

    ghost matches_eq = { texts_ties };

    fn cmp(&self, other: &Path) -> Ordering {
        self.parts().cmp(other.parts())
    }
}

impl Hash for Path {
    ghost hash_input = { λ p. fed.slice fed.u32 p };

    ghost respects_eq = { Prim.search (hashing, rules) };

    fn hash<H: Hasher>(&self, state: &mut H) {
        self.parts().hash(state);
    }
}
