// Rules for primitives.

ghost use Rattle.std.specs.Prelude.{◌≡◌, Option, Some, None, ◌⊎◌, refl};
ghost use Rattle.std.specs.Borrow.{Bor};
ghost use Rattle.std.specs.Fn.{FnReturnsAt};
ghost use Rattle.nv_base.specs.declared.term.Primitive.{Primitive};
ghost use Rattle.nv_base.specs.Words.{HasPrimCount};
ghost use Rattle.cps_rules.specs.Rules.{IsSound, IsAnswered, IsSomeOf, both_sound};
ghost use Rattle.cps_rules.specs.inner.Way.{Counted};

use nv_base::Prim;

/// What answers for a primitive another one that has the same word under every environment of words,
/// uses no further variable, and has a count of 1 to 31 if it is a shift. It is asked about such
/// primitives alone, so a shift that it is asked about has a count of 1 to 31 too.
pub trait Rewrite {
    // the answers that a call may give
    ghost answers: { Self → Primitive → Option Primitive → Type 0 };

    // it may be asked
    ghost ready: { Self → Type 0 };

    /// The answer, or None where the primitive is to stay.
    fn rewrite(&self, p: &Prim) -> Option<Prim>
        requires ready { ready self.now }
        requires count { HasPrimCount p.now }
        ensures { answers self.now p.now result };

    // each answer is sound
    ghost sound: { (r : Self) (p q : Primitive) → ready r → HasPrimCount p → answers r p (Some q) → IsSound p q };
}

/// A closure each of whose answers is sound.
#[derive(Drop)]
pub struct Rule<F> {
    f: F,
}

impl<F: Fn(&Prim) -> Option<Prim>> Rule<F> {
    /// Stores a closure.
    pub fn new(f: F) -> Rule<F>
        requires callable { (p : Bor Primitive) → HasPrimCount p.now → F.pre f p }
        requires sound { (p q : Primitive) → HasPrimCount p → FnReturnsAt F.Fn f p (Some q) → IsSound p q }
        ensures ready { ⟦<Rule<F> as Rewrite>⟧.ready result }
        ensures answers { (p : Primitive) (a : Option Primitive) → ⟦<Rule<F> as Rewrite>⟧.answers result p a → FnReturnsAt F.Fn f p a }
    {
        Rule { f }
    }
}

impl<F: Fn(&Prim) -> Option<Prim>> Rewrite for Rule<F> {
    ghost answers = { λ r p a. FnReturnsAt F.Fn r.f p a };

    ghost ready = { λ r. ((p : Bor Primitive) → HasPrimCount p.now → F.pre r.f p) × ((p q : Primitive) → HasPrimCount p → FnReturnsAt F.Fn r.f p (Some q) → IsSound p q) };

    ghost sound = { λ r p q h count answer. h.1 p q count answer };

    fn rewrite(&self, p: &Prim) -> Option<Prim> {
        (self.f)(p)
    }
}

/// Asks the first, and where that has no answer the second.
#[derive(Drop)]
pub struct Both<R, Q> {
    pub first: R,
    pub second: Q,
}

impl<R: Rewrite, Q: Rewrite> Rewrite for Both<R, Q> {
    ghost answers = { λ r p a. (IsSomeOf a × R.answers r.first p a) ⊎ (R.answers r.first p None × Q.answers r.second p a) };

    ghost ready = { λ r. R.ready r.first × Q.ready r.second };

    ghost sound = { λ r p q h count. both_sound p q (R.answers r.first p) (Q.answers r.second p) (R.sound r.first p q h.0 count) (Q.sound r.second p q h.1 count) };

    fn rewrite(&self, p: &Prim) -> Option<Prim> {
        match self.first.rewrite(p) {
            Some(q) => Some(q),
            None => self.second.rewrite(p),
        }
    }
}

/// The rule's answer, or the primitive where there is none.
pub fn answer<R: Rewrite>(r: &R, p: Prim) -> Prim
    requires ready { R.ready r.now }
    requires count { HasPrimCount p }
    ensures { IsAnswered (Counted (R.answers r.now)) p result }
{
    match r.rewrite(&p) {
        Some(q) => q,
        None => p,
    }
}
