//! What holds of the texts of functions.

ghost use Rattle.std.specs.Prelude.{◌≡◌, ◌++◌, ℕ, List, Some, Ok, true, flat_map};
ghost use Rattle.boki_types.specs.declared.program.Program.{Program};
ghost use Rattle.boki_model.specs.Plans.{is_program};
ghost use Rattle.script_lang.specs.Texts.{program_of};
ghost use Rattle.line_text.specs.declared.token.Token.{Token};
ghost use Rattle.script_lang.specs.declared.parts.Part.{Part};
ghost use Rattle.line_text.specs.declared.checked.Checked.{Checked};
ghost use Rattle.boki_types.specs.declared.expr.Expr.{Expr};
ghost use Rattle.script_lang.specs.Expressions.{expr_at, checked_expr};
ghost use Rattle.line_text.specs.declared.checked.Checked.TheVariants.{Valid};
ghost use Rattle.script_lang.specs.Canonical.{tokens_of};
ghost use Rattle.script_lang.specs.Printed.{top_expr_text, function_text};
ghost use Rattle.line_text.specs.Tokens.{tokens_in};
ghost use Rattle.script_lang.specs.Grammar.{Spells, IsSpelledExpr, ends_at};

/// What the grammar of expressions spells is read as what it spells, up to where it ends.
pub fn spelled_expression_parses()
    ensures { (ts rest : List Token) (a : Part) → Spells 0 ts a → ends_at rest ≡ true → expr_at (ts ++ rest) ≡ Some (checked_expr a, rest) }
{}

/// What is read as an expression is spelled by the grammar, as what it is read, up to where it ends.
pub fn parsed_expression_is_spelled()
    ensures { (ts : List Token) (found : Checked Expr × List Token) → expr_at ts ≡ Some found → IsSpelledExpr ts found }
{}

/// The program that a text spells is within all limits, its blocks are closed, and its names and numbers of arguments are right.
pub fn parsed_program_is_valid()
    ensures { (first : ℕ) (text : List ℕ) (p : Program) → program_of first text ≡ Ok p → is_program p ≡ true }
{}

/// An expression that was read is read again from its canonical tokens, whatever follows them up to where it ends.
pub fn canonical_tokens_parse_back()
    ensures { (ts behind rest : List Token) (x : Expr) → expr_at ts ≡ Some (Valid x, behind) → ends_at rest ≡ true → expr_at (tokens_of 0 x ++ rest) ≡ Some (Valid x, rest) }
{}

/// The canonical text of an expression that was read from a text is cut into its canonical tokens.
pub fn printed_expression_lexes_back()
    ensures { (text : List ℕ) (ts behind : List Token) (x : Expr) → tokens_in text ≡ Some ts → expr_at ts ≡ Some (Valid x, behind) → tokens_in (top_expr_text x) ≡ Some (tokens_of 0 x) }
{}

/// The program that a text spells is spelled again by the canonical text of its functions, one behind the other.
pub fn printed_program_parses_back()
    ensures { (first second : ℕ) (text : List ℕ) (p : Program) → program_of first text ≡ Ok p → program_of second (flat_map function_text p.functions) ≡ Ok p }
{}
