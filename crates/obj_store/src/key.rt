//! Looking an object up by a borrowed key.

ghost use Rattle.std.specs.Prelude.{bytes_eq};
ghost use Rattle.std.proofs.Common.{ap, rules};
ghost use Rattle.std.specs.Cmp.Lexicographic.{bytes_decides, nat_list_eq_equiv};
ghost use Rattle.std.specs.Hash as fed;

use indexmap::Equivalent;
use lb_base::Words;
use std::hash::{Hash, Hasher};

/// A key of an object, as a borrowed text, with which the object is looked up.
#[derive(Clone, Copy, PartialEq, Eq)]
pub struct Key<'a> {
    pub text: &'a str,
}

impl Hash for Key<'_> {
    ghost hash_input = { λ q. fed.str q.text.now };

    ghost respects_eq = { Prim.search rules };

    fn hash<H: Hasher>(&self, state: &mut H) {
        self.text.hash(state);
    }
}

impl Equivalent<Words> for Key<'_> {
    ghost equivalent = { λ q k. bytes_eq q.text.now k };

    ghost respects_hash = { λ q k h. ap fed.str ((bytes_decides q.text.now k).0 h) };

    ghost respects_eq = { λ q x y. nat_list_eq_equiv.congr q.text.now x y };

    fn equivalent(&self, key: &Words) -> bool {
        self.text == key.as_str()
    }
}
