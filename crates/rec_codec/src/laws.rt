//! The laws of the format, each the contract of a function with nothing to do.

ghost use Rattle.std.specs.Prelude.{◌≡◌, ℕ, ◌≤◌, List, length, Ok, nat_lt, IsTrue};
ghost use Rattle.std.specs.List.{list_all};
ghost use Rattle.boki_model.specs.Bodies.{in_range};
ghost use Rattle.rec_codec.specs.Spelling.{spelled, has_texts};
ghost use Rattle.rec_codec.specs.Reading.{read};

use crate::Body;

/// What is read is in range, its texts are texts, and it is spelled so, each byte of it.
pub fn read_is_spelled()
    ensures { (bytes : List ℕ) (body : Body) → IsTrue (list_all (λ c. nat_lt c 256) bytes) → read bytes ≡ Ok body
        → IsTrue (in_range body) × IsTrue (has_texts body) × (bytes ≡ spelled body) }
{}

/// What is spelled is read, whatever the fields' values.
pub fn spelled_is_read()
    ensures { (body : Body) → IsTrue (in_range body) → IsTrue (has_texts body) → length (spelled body) ≤ 4096 → read (spelled body) ≡ Ok body }
{}

/// No spelling is another body's.
pub fn one_spelling()
    ensures { (a b : Body) → IsTrue (in_range a) → IsTrue (has_texts a) → length (spelled a) ≤ 4096
        → IsTrue (in_range b) → IsTrue (has_texts b) → spelled a ≡ spelled b → a ≡ b }
{}
