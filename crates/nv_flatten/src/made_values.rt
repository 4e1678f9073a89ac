// Values and steps made of the values of their parts.

ghost use Rattle.std.specs.Prelude.{◌≡◌, ◌≤◌, ◌+◌, ◌++◌, [], ◌∷◌, ℕ, List, Some, true, IfOk, OnOk, option_map};
ghost use Rattle.nv_ast.specs.declared.token.Span.{Span};
ghost use Rattle.nv_ast.specs.declared.tree.Op.{Op};
ghost use Rattle.nv_ast.specs.Tree.{Tree, InvertTree, NegateTree, BinaryTree, ShiftTree, UnpackTree, PackTree, FetchTree, StoreStatement};
ghost use Rattle.nv_flatten_values.specs.inner.Arms.{is_named};
ghost use Rattle.nv_flatten_values.specs.inner.Code.{arithmetic_of, form_or_unit};
ghost use Rattle.nv_flatten_values.specs.inner.Simulation.{Extends};
ghost use Rattle.nv_flatten_values.specs.inner.Symbols.{SymbolScope, fresh, numbers_from, word_operand};
ghost use Rattle.nv_flatten_values.specs.inner.View.{view};
ghost use Rattle.nv_flatten_values.specs.inner.Whole.{Whole};
ghost use Rattle.nv_flatten_values.specs.inner.WholeView.{whole_in};
ghost use Rattle.nv_ast.specs.Types.{words};
ghost use Rattle.nv_flatten.specs.inner.Flat.{IsFlatValue, IsFlatStatement, IsFlatEnd};

use crate::made_code::Tail;
use crate::want::{made, put};
use flat_ir::Step;
use nv_ast::{Name, ShiftOp};
use nv_base::{Atom, Bin, Mem, NoMemory, Prim, Una};
use nv_flatten_values::layouts::{packed, unpacked};
use nv_flatten_values::parts::{add_steps, define, new_variables, shifted, short};
use nv_flatten_values::source::Source;
use nv_flatten_values::symbol::{
    Field, Symbol, Valued, operands_in, renewed, symbol_of_words, truth_in, word_in,
};
use std::alloc::Global;

/// Steps, and the symbolic values that are there after them.
#[derive(Drop)]
pub struct Listed<'a> {
    pub steps: Vec<Step>,
    pub symbols: Vec<Symbol<'a>>,
}

/// Steps, and the fields of a record after them.
#[derive(Drop)]
pub struct Recorded<'a> {
    pub steps: Vec<Step>,
    pub fields: Vec<Field<'a>>,
}

/// Steps, and the words of two operands after them.
#[derive(Drop)]
pub struct TwoWords {
    pub steps: Vec<Step>,
    pub left: Atom,
    pub right: Atom,
}

// ---- a value of one operand

/// A word with its bits turned over.
pub fn inverted<'a>(operand: Valued<'a>, next: &mut u32) -> Result<Valued<'a>, NoMemory>
    ensures flat { IfOk result (λ r. (w : Whole) (old names : List (List ℕ)) (low : ℕ) (scope : SymbolScope) (s : Span) (a : Tree) → low ≤ next.old → IsFlatValue w old names low next.old scope a operand.entry.steps.items (view operand.entry.symbol) → IsFlatValue w old names low next.new scope (InvertTree s a) r.steps.items (view r.symbol)) }
    ensures later { next.old ≤ next.new }
{
    let word = word_in(&operand.symbol);
    drop(operand.symbol);
    let mut steps = operand.steps;
    let x = made!(define(Prim::Una(Una::Not, word), &mut steps, next), steps);
    Ok(Valued {
        steps,
        symbol: Symbol::Word(Atom::Var(x)),
    })
}

/// The other truth.
pub fn negated<'a>(operand: Valued<'a>, next: &mut u32) -> Result<Valued<'a>, NoMemory>
    ensures flat { IfOk result (λ r. (w : Whole) (old names : List (List ℕ)) (low : ℕ) (scope : SymbolScope) (s : Span) (a : Tree) → low ≤ next.old → IsFlatValue w old names low next.old scope a operand.entry.steps.items (view operand.entry.symbol) → IsFlatValue w old names low next.new scope (NegateTree s a) r.steps.items (view r.symbol)) }
    ensures later { next.old ≤ next.new }
{
    let truth = truth_in(&operand.symbol);
    drop(operand.symbol);
    let mut steps = operand.steps;
    let x = made!(
        define(Prim::Bin(Bin::Xor, truth, Atom::Lit(1)), &mut steps, next),
        steps
    );
    Ok(Valued {
        steps,
        symbol: Symbol::Truth(Atom::Var(x)),
    })
}

/// A word shifted by so many places.
pub fn shifted_by<'a>(
    op: ShiftOp,
    n: u32,
    operand: Valued<'a>,
    next: &mut u32,
) -> Result<Valued<'a>, NoMemory>
    ensures flat { IfOk result (λ r. (w : Whole) (old names : List (List ℕ)) (low : ℕ) (scope : SymbolScope) (s : Span) (a : Tree) → low ≤ next.old → IsFlatValue w old names low next.old scope a operand.entry.steps.items (view operand.entry.symbol) → IsFlatValue w old names low next.new scope (ShiftTree s op a n) r.steps.items (view r.symbol)) }
    ensures later { next.old ≤ next.new }
{
    let word = word_in(&operand.symbol);
    drop(operand.symbol);
    let mut steps = operand.steps;
    let shifted = made!(shifted(op, word, n, &mut steps, next), steps);
    Ok(Valued {
        steps,
        symbol: Symbol::Word(shifted),
    })
}

/// The fields of a packed value.
pub fn unpacked_value<'a>(
    alloc: Global,
    t: &Source<'a>,
    l: &'a Name,
    whole: Valued<'a>,
    next: &mut u32,
) -> Result<Valued<'a>, NoMemory>
    ensures flat { IfOk result (λ r. (old names : List (List ℕ)) (low : ℕ) (scope : SymbolScope) (s : Span) (a : Tree) → low ≤ next.old → IsFlatValue (whole_in t.now) old names low next.old scope a whole.entry.steps.items (view whole.entry.symbol) → IsFlatValue (whole_in t.now) old names low next.new scope (UnpackTree s l.now a) r.steps.items (view r.symbol)) }
    ensures later { next.old ≤ next.new }
{
    let words = made!(operands_in(alloc, &whole.symbol), whole);
    drop(whole.symbol);
    let mut steps = whole.steps;
    let fields = made!(unpacked(alloc, &t.table, l, &words, next), steps);
    made!(add_steps(fields.steps, &mut steps), fields.symbol, steps);
    Ok(Valued {
        steps,
        symbol: fields.symbol,
    })
}

/// A record, packed.
pub fn packed_value<'a>(
    alloc: Global,
    t: &Source<'a>,
    l: &'a Name,
    fields: Valued<'a>,
    next: &mut u32,
) -> Result<Valued<'a>, NoMemory>
    ensures flat { IfOk result (λ r. (old names : List (List ℕ)) (low : ℕ) (scope : SymbolScope) (s : Span) (a : Tree) → low ≤ next.old → IsFlatValue (whole_in t.now) old names low next.old scope a fields.entry.steps.items (view fields.entry.symbol) → IsFlatValue (whole_in t.now) old names low next.new scope (PackTree s l.now a) r.steps.items (view r.symbol)) }
    ensures later { next.old ≤ next.new }
{
    let words = made!(packed(alloc, &t.table, l, &fields.symbol, next), fields);
    drop(fields.symbol);
    let mut steps = fields.steps;
    made!(add_steps(words.steps, &mut steps), words.symbol, steps);
    Ok(Valued {
        steps,
        symbol: words.symbol,
    })
}

/// N words of a memory, from an address on.
pub fn fetched<'a>(
    alloc: Global,
    m: Mem,
    n: u32,
    address: Valued<'a>,
    next: &mut u32,
) -> Result<Valued<'a>, NoMemory>
    ensures flat { IfOk result (λ r. (w : Whole) (old names : List (List ℕ)) (low : ℕ) (scope : SymbolScope) (s : Span) (a : Tree) → low ≤ next.old → IsFlatValue w old names low next.old scope a address.entry.steps.items (view address.entry.symbol) → IsFlatValue w old names low next.new scope (FetchTree s m n a) r.steps.items (view r.symbol)) }
    ensures later { next.old ≤ next.new }
{
    let place = word_in(&address.symbol);
    drop(address.symbol);
    let mut steps = address.steps;
    let mut words = Vec::new(alloc);
    let vars = made!(new_variables(alloc, n, next, &mut words), steps);
    put!(steps, Step::Fetch(m, vars, place), steps);
    let symbol = made!(symbol_of_words(alloc, &words), steps);
    Ok(Valued { steps, symbol })
}

// ---- a value of two operands

/// The steps of two operands, one after the other, and their words.
pub fn two_words<'a>(left: Valued<'a>, right: Valued<'a>) -> Result<TwoWords, NoMemory>
    ensures steps { IfOk result (λ r. r.steps.items ≡ left.entry.steps.items ++ right.entry.steps.items) }
    ensures left { IfOk result (λ r. r.left ≡ word_operand (view left.entry.symbol)) }
    ensures right { IfOk result (λ r. r.right ≡ word_operand (view right.entry.symbol)) }
{
    let x = word_in(&left.symbol);
    let y = word_in(&right.symbol);
    drop(left.symbol);
    drop(right.symbol);
    let mut steps = left.steps;
    made!(add_steps(right.steps, &mut steps), steps);
    Ok(TwoWords {
        steps,
        left: x,
        right: y,
    })
}

/// The word of an operation on two words.
pub fn combined<'a>(
    bin: Bin,
    left: Valued<'a>,
    right: Valued<'a>,
    next: &mut u32,
) -> Result<Valued<'a>, NoMemory>
    ensures flat { IfOk result (λ r. (w : Whole) (old names more : List (List ℕ)) (low mid : ℕ) (scope : SymbolScope) (s : Span) (op : Op) (a b : Tree) → arithmetic_of op ≡ Some bin → Extends names more → low ≤ mid → mid ≤ next.old → IsFlatValue w old names low mid scope a left.entry.steps.items (view left.entry.symbol) → IsFlatValue w names more mid next.old scope b right.entry.steps.items (view right.entry.symbol) → IsFlatValue w old more low next.new scope (BinaryTree s op a b) r.steps.items (view r.symbol)) }
    ensures later { next.old ≤ next.new }
{
    let both = two_words(left, right)?;
    let combined = Prim::Bin(bin, both.left, both.right);
    let mut steps = both.steps;
    let x = made!(define(combined, &mut steps, next), steps);
    Ok(Valued {
        steps,
        symbol: Symbol::Word(Atom::Var(x)),
    })
}

/// The steps that store a value's words, from an address on.
pub fn store_steps<'a>(
    alloc: Global,
    m: Mem,
    address: Valued<'a>,
    stored: Valued<'a>,
) -> Result<Vec<Step>, NoMemory>
    ensures { IfOk result (λ ss. (w : Whole) (old names more : List (List ℕ)) (low mid high : ℕ) (scope : SymbolScope) (s : Span) (a e : Tree) → Extends names more → low ≤ mid → mid ≤ high → IsFlatValue w old names low mid scope a address.entry.steps.items (view address.entry.symbol) → IsFlatValue w names more mid high scope e stored.entry.steps.items (view stored.entry.symbol) → IsFlatStatement w old more low high scope (StoreStatement s m a e) ss.items scope) }
{
    let place = word_in(&address.symbol);
    drop(address.symbol);
    let mut steps = address.steps;
    made!(add_steps(stored.steps, &mut steps), stored.symbol, steps);
    let operands = made!(operands_in(alloc, &stored.symbol), stored.symbol, steps);
    drop(stored.symbol);
    let words = made!(short(alloc, &operands), steps);
    put!(steps, Step::Store(m, place, words), steps);
    Ok(steps)
}

// ---- steps before a value, and values one after another

/// A value with steps before its own.
pub fn behind<'a>(steps: Vec<Step>, last: Valued<'a>) -> Result<Valued<'a>, NoMemory>
    ensures { IfOk result (λ r. (r.steps.items ≡ steps.items ++ last.entry.steps.items) × (view r.symbol ≡ view last.entry.symbol)) }
{
    let mut steps = steps;
    made!(add_steps(last.steps, &mut steps), last.symbol, steps);
    Ok(Valued {
        steps,
        symbol: last.symbol,
    })
}

/// No values, with room for so many.
pub fn no_values<'a>(alloc: Global, n: usize) -> Result<Listed<'a>, NoMemory>
    ensures steps { IfOk result (λ r. r.steps.items ≡ []) }
    ensures symbols { IfOk result (λ r. r.symbols.items ≡ []) }
{
    Ok(Listed {
        steps: Vec::new(alloc),
        symbols: Vec::with_capacity(alloc, n)?,
    })
}

/// No fields, with room for so many.
pub fn no_fields<'a>(alloc: Global, n: usize) -> Result<Recorded<'a>, NoMemory>
    ensures steps { IfOk result (λ r. r.steps.items ≡ []) }
    ensures fields { IfOk result (λ r. r.fields.items ≡ []) }
{
    Ok(Recorded {
        steps: Vec::new(alloc),
        fields: Vec::with_capacity(alloc, n)?,
    })
}

/// Adds a value to others, and its steps to theirs.
pub fn add_valued<'a>(v: Valued<'a>, listed: &mut Listed<'a>) -> Result<(), NoMemory>
    ensures steps { OnOk result (listed.new.steps.items ≡ listed.old.steps.items ++ v.entry.steps.items) }
    ensures symbols { OnOk result (listed.new.symbols.items ≡ listed.old.symbols.items ++ v.entry.symbol ∷ []) }
{
    made!(add_steps(v.steps, &mut listed.steps), v.symbol);
    put!(listed.symbols, v.symbol);
    Ok(())
}

/// Adds a field to others, and its steps to theirs.
pub fn add_field<'a>(
    x: &'a Name,
    v: Valued<'a>,
    recorded: &mut Recorded<'a>,
) -> Result<(), NoMemory>
    ensures steps { OnOk result (recorded.new.steps.items ≡ recorded.old.steps.items ++ v.entry.steps.items) }
    ensures fields { OnOk result (recorded.new.fields.items ≡ recorded.old.fields.items ++ (x.entry, v.entry.symbol) ∷ []) }
{
    made!(add_steps(v.steps, &mut recorded.steps), v.symbol);
    put!(recorded.fields, (x, v.symbol));
    Ok(())
}

// ---- a value that code gives

/// New variables for the words that code ends with.
pub fn bound_value<'a>(
    alloc: Global,
    tail: Tail<'a>,
    next: &mut u32,
) -> Result<Valued<'a>, NoMemory>
    ensures flat { IfOk result (λ r. (w : Whole) (old names : List (List ℕ)) (low : ℕ) (scope : SymbolScope) (e : Tree) → is_named e ≡ true → low ≤ next.old → IsFlatEnd w old names low next.old scope e tail.entry.code (option_map view tail.entry.form) → IsFlatValue w old names low next.new scope e r.steps.items (view r.symbol)) }
    ensures later { next.old ≤ next.new }
{
    let mut words = Vec::new(alloc);
    let symbol = made!(renewed_form(alloc, tail.form, next, &mut words), tail.code);
    let mut steps = Vec::new(alloc);
    put!(steps, Step::Bind(words, tail.code), symbol, steps);
    Ok(Valued { steps, symbol })
}

// A symbolic value of a form, of new variables; where there is no form there is no value.
fn renewed_form<'a>(
    alloc: Global,
    form: Option<Symbol<'a>>,
    next: &mut u32,
    made: &mut Vec<u32>,
) -> Result<Symbol<'a>, NoMemory>
    ensures symbol { IfOk result (λ new. view new ≡ fresh next.old (form_or_unit (option_map view form.entry))) }
    ensures next { OnOk result (next.new ≡ next.old + words (form_or_unit (option_map view form.entry))) }
    ensures made { OnOk result (made.new.items ≡ made.old.items ++ numbers_from next.old (words (form_or_unit (option_map view form.entry)))) }
    ensures later { next.old ≤ next.new }
{
    match form {
        Some(s) => {
            let new = renewed(alloc, &s, next, made);
            drop(s);
            new
        }
        None => Ok(Symbol::Tuple(Vec::new(alloc))),
    }
}
