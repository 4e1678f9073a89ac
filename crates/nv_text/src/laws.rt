//! What holds of the definitions.

ghost use Rattle.std.specs.Prelude.{◌≡◌, ℕ, List, []};
ghost use Rattle.nv_ast.specs.declared.token.Token.{Token};
ghost use Rattle.nv_ast.specs.Tree.{DeclTree};
ghost use Rattle.nv_ast.specs.Grammar.{IsDecls};
ghost use Rattle.nv_text.specs.declared.error.TextError.{TextError};
ghost use Rattle.nv_text.specs.Program.{FaultOf};
ghost use Rattle.nv_text.specs.Spelt.{AreSpelt, spelt_keywords, spelt_signs, spelt_operators};

/// Tokens are one program at most.
#[tactic(auto, using(nv_text_parser::proofs::OneExpression::det_decls))]
pub fn one_program()
    ensures { (ts : List Token) (ds es : List DeclTree) → IsDecls ds ts [] → IsDecls es ts [] → ds ≡ es }
{}

/// A text has one fault at most, at one place.
#[tactic(auto, using(crate::proofs::ProgramRules::fault_same))]
pub fn one_fault()
    ensures { (bytes : List ℕ) (e f : TextError) → FaultOf bytes e → FaultOf bytes f → e ≡ f }
{}

/// Each keyword and each sign of the grammar is spelled as its name says.
pub fn tokens_are_spelt()
    ensures keywords { AreSpelt spelt_keywords }
    ensures signs { AreSpelt spelt_signs }
    ensures operators { AreSpelt spelt_operators }
{}
