//! What holds of the texts of numbers and of quoted texts.

ghost use Rattle.std.specs.Prelude.{◌≡◌, ◌++◌, ◌<◌, ◌^◌, ℕ, ℤ, List, IfSome};
ghost use lib.Signed.{mag};
ghost use Rattle.std.specs.Fmt.{decimal, signed_decimal};
ghost use Rattle.lb_base.specs.Numeral.{num_of, int_of};
ghost use Rattle.lb_base.specs.Quoted.{quoted, quoted_at};

/// A quoted text is read again, whatever follows it, and what is read was spelled so.
pub fn quoted_reads_back()
    ensures again { (text rest : List ℕ) → quoted_at (quoted text ++ rest) ≡ Some (text, rest) }
    ensures once { (text : List ℕ) → IfSome (quoted_at text) (λ p. text ≡ quoted p.0 ++ p.1) }
{}

/// The numeral of a number of 64 bits is read again, and what is read was spelled so.
pub fn numeral_reads_back()
    ensures again { (n : ℕ) → n < 2 ^ 64 → num_of (decimal n) ≡ Some n }
    ensures once { (text : List ℕ) → IfSome (num_of text) (λ n. decimal n ≡ text) }
{}

/// The text of an integer of 64 bits is read again, and what is read was spelled so.
pub fn integer_reads_back()
    ensures again { (z : ℤ) → mag z < 2 ^ 63 → int_of (signed_decimal z) ≡ Some z }
    ensures once { (text : List ℕ) → IfSome (int_of text) (λ z. signed_decimal z ≡ text) }
{}
