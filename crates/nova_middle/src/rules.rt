// The rules for primitives.

ghost use Rattle.std.specs.Prelude.{◌≡◌, ◌≤◌, All, IfOk, map};
ghost use Rattle.nv_base.specs.Meanings.{AreEqual};
ghost use Rattle.nv_base.specs.Measures.{IsAtMost};
ghost use Rattle.nv_base.specs.Words.{HasPrimCount};
ghost use Rattle.flow_ir.specs.Bulk.{bulk};
ghost use Rattle.flow_ir.specs.Meaning.{flow_meaning, flow_params};
ghost use Rattle.flow_ir.specs.View.{label_view};
ghost use Rattle.flow_ir.specs.Wide.{wide};
ghost use Rattle.cps_rules.specs.Simplified.{AreTidy};
ghost use Rattle.nova_middle.specs.Rules as spec;
ghost use Rattle.nova_middle.specs.Rules.{value_rule, operand_rule, nothing_rule, IsAtRest};

use cps_rules::{Both, Rule, simplify};
use flow_ir::Flow;
use nv_base::{Atom, Bin, NoMemory, Prim};
use std::alloc::Global;

// The word whose bits are all set.
const ONES: u32 = u32::MAX;

// An operation on literals gives its word.
fn value(p: Prim) -> Option<Prim>
    requires { HasPrimCount p }
    ensures { result ≡ value_rule p }
{
    match p {
        Prim::Una(op, Atom::Lit(v)) => Some(Prim::Same(Atom::Lit(op.apply(v)))),
        Prim::Bin(op, Atom::Lit(v), Atom::Lit(w)) => Some(Prim::Same(Atom::Lit(op.apply(v, w)))),
        _ => None,
    }
}

// Whether an operand is this literal.
fn is_literal(n: u32, a: Atom) -> bool
    ensures { result ≡ spec.is_literal n a }
{
    match a {
        Atom::Lit(v) => v == n,
        Atom::Var(_) => false,
    }
}

// Whether two operands are the same.
fn is_operand(a: Atom, b: Atom) -> bool
    ensures { result ≡ spec.is_operand a b }
{
    match (a, b) {
        (Atom::Var(x), Atom::Var(y)) => x == y,
        (Atom::Lit(v), Atom::Lit(w)) => v == w,
        _ => false,
    }
}

/// Whether an operation leaves its first operand as it is.
pub fn leaves_first(op: Bin, a: Atom, b: Atom) -> bool
    ensures { result ≡ spec.leaves_first op a b }
{
    match op {
        Bin::Add => is_literal(0, b),
        Bin::Sub => is_literal(0, b),
        Bin::Or => is_literal(0, b) || is_operand(a, b),
        Bin::Xor => is_literal(0, b),
        Bin::And => is_literal(ONES, b) || is_operand(a, b),
    }
}

/// Whether an operation leaves its second operand as it is.
pub fn leaves_second(op: Bin, a: Atom) -> bool
    ensures { result ≡ spec.leaves_second op a }
{
    match op {
        Bin::Add => is_literal(0, a),
        Bin::Sub => false,
        Bin::Or => is_literal(0, a),
        Bin::Xor => is_literal(0, a),
        Bin::And => is_literal(ONES, a),
    }
}

/// Whether an operation gives 0.
pub fn leaves_nothing(op: Bin, a: Atom, b: Atom) -> bool
    ensures { result ≡ spec.leaves_nothing op a b }
{
    match op {
        Bin::Add => false,
        Bin::Sub => is_operand(a, b),
        Bin::Or => false,
        Bin::Xor => is_operand(a, b),
        Bin::And => is_literal(0, a) || is_literal(0, b),
    }
}

// An operation that leaves one of its operands as it is gives this.
fn operand(p: Prim) -> Option<Prim>
    ensures { result ≡ operand_rule p }
{
    match p {
        Prim::Bin(op, a, b) => {
            if leaves_first(op, a, b) {
                Some(Prim::Same(a))
            } else if leaves_second(op, a) {
                Some(Prim::Same(b))
            } else {
                None
            }
        }
        _ => None,
    }
}

// An operation that leaves nothing gives 0.
fn nothing(p: Prim) -> Option<Prim>
    ensures { result ≡ nothing_rule p }
{
    match p {
        Prim::Bin(op, a, b) => {
            if leaves_nothing(op, a, b) {
                Some(Prim::Same(Atom::Lit(0)))
            } else {
                None
            }
        }
        _ => None,
    }
}

/// The flow simplified by the rules, asked in this order: literals have their value, what an operation leaves
/// as it is stands for its result, and what is always 0 is 0. No `Let` is left that a rule answers.
pub fn simplified(alloc: Global, f: Flow) -> Result<Flow, NoMemory>
    ensures params { IfOk result (λ g. flow_params (map label_view g.labels.items) ≡ flow_params (map label_view f.labels.items)) }
    ensures equal { IfOk result (λ g. AreEqual (flow_params (map label_view f.labels.items)) (flow_meaning (map label_view f.labels.items)) (flow_meaning (map label_view g.labels.items))) }
    ensures rules { IfOk result (λ g. All IsAtRest (map label_view g.labels.items)) }
    ensures tidy { IfOk result (λ g. AreTidy (map label_view g.labels.items)) }
    ensures wide { IfOk result (λ g. wide (map label_view g.labels.items) ≤ wide (map label_view f.labels.items)) }
    ensures bulk { IfOk result (λ g. IsAtMost (bulk (map label_view g.labels.items)) (bulk (map label_view f.labels.items))) }
{
    let values = Rule::new(|p: &Prim| value(*p));
    let operands = Rule::new(|p: &Prim| operand(*p));
    let nothings = Rule::new(|p: &Prim| nothing(*p));
    let rules = Both {
        first: values,
        second: Both {
            first: operands,
            second: nothings,
        },
    };
    simplify(alloc, f, &rules)
}
