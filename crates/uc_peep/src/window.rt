//! Rules for windows.

ghost use Rattle.std.specs.Prelude.{◌≡◌, ◌⊎◌, ℕ, List, Option, Some, None};
ghost use Rattle.std.specs.Borrow.{Bor};
ghost use Rattle.uc_isa.specs.declared.instruction.Instr.{Instr};
ghost use Rattle.uc_peep.specs.Window.{IsText, IsShorter};
ghost use Rattle.uc_peep.specs.Rules.{Gives, IsSomeOf, pair_sound};

use crate::{LiveSet, Shorter};
use uc_isa::Instr;

/// What answers for a window with shorter code, given what is live after it.
pub trait Window {
    // the answers that a call may give
    ghost answers: { Self → List Instr → ℕ → Option (List Instr) → Type 0 };

    // it may be asked
    ghost ready: { Self → Type 0 };

    /// The shorter code, or None where the window is to stay.
    fn shorter(&self, w: &[Instr], after: &LiveSet) -> Option<Shorter>
        requires ready { ready self.now }
        requires text { IsText w.now }
        ensures { answers self.now w.now after.now result };

    // each answer is sound
    ghost sound: { (r : Self) (ws : List Instr) (set : ℕ) (shorter : List Instr) → ready r → IsText ws → answers r ws set (Some shorter) → IsShorter ws set shorter };
}

/// A closure each of whose answers is sound.
#[derive(Drop)]
pub struct WindowRule<F> {
    f: F,
}

impl<F: Fn(&[Instr], &LiveSet) -> Option<Shorter>> WindowRule<F> {
    /// Stores a closure.
    pub fn new(f: F) -> WindowRule<F>
        requires callable { (w : Bor (List Instr)) (set : Bor ℕ) → IsText w.now → F.pre f w set }
        requires sound { (ws : List Instr) (set : ℕ) (shorter : List Instr) → IsText ws → Gives F.Fn f ws set (λ r. r ≡ Some shorter) → IsShorter ws set shorter }
        ensures ready { ⟦<WindowRule<F> as Window>⟧.ready result }
        ensures answers { (ws : List Instr) (set : ℕ) (o : Option (List Instr)) → ⟦<WindowRule<F> as Window>⟧.answers result ws set o → Gives F.Fn f ws set (λ r. r ≡ o) }
    {
        WindowRule { f }
    }
}

impl<F: Fn(&[Instr], &LiveSet) -> Option<Shorter>> Window for WindowRule<F> {
    ghost answers = { λ r ws set o. Gives F.Fn r.f ws set (λ a. a ≡ o) };

    ghost ready = { λ r. ((w : Bor (List Instr)) (set : Bor ℕ) → IsText w.now → F.pre r.f w set) × ((ws : List Instr) (set : ℕ) (shorter : List Instr) → IsText ws → Gives F.Fn r.f ws set (λ a. a ≡ Some shorter) → IsShorter ws set shorter) };

    ghost sound = { λ r ws set shorter h text answer. h.1 ws set shorter text answer };

    fn shorter(&self, w: &[Instr], after: &LiveSet) -> Option<Shorter> {
        (self.f)(w, after)
    }
}

/// Asks the first, and where that has no answer the second.
#[derive(Drop)]
pub struct Pair<R, Q> {
    pub first: R,
    pub second: Q,
}

impl<R: Window, Q: Window> Window for Pair<R, Q> {
    ghost answers = { λ r ws set o. (IsSomeOf o × R.answers r.first ws set o) ⊎ (R.answers r.first ws set None × Q.answers r.second ws set o) };

    ghost ready = { λ r. R.ready r.first × Q.ready r.second };

    ghost sound = { λ r ws set shorter h text. pair_sound ws set shorter (R.answers r.first ws set) (Q.answers r.second ws set) (R.sound r.first ws set shorter h.0 text) (Q.sound r.second ws set shorter h.1 text) };

    fn shorter(&self, w: &[Instr], after: &LiveSet) -> Option<Shorter> {
        match self.first.shorter(w, after) {
            Some(a) => Some(a),
            None => self.second.shorter(w, after),
        }
    }
}
