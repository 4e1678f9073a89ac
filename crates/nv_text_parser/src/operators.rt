// The operators by their signs.
ghost use Rattle.std.specs.Prelude.{◌≡◌, ◌∷◌, MatchOption};
ghost use Rattle.nv_ast.specs.declared.tree.Op.{Op};
ghost use Rattle.nv_ast.specs.Tokens.{sign_of, level_of, shift_sign_of};
ghost use Rattle.nv_text_parser.specs.inner.Operators.{StartsOperator, StartsShift, NoOperator, NoShift};

use nv_ast::{Op, ShiftOp, Sort, Token};

/// The operator that the sign in front is, if its operands are of this level.
pub fn operator_here<'a>(tokens: &'a [Token], level: u8) -> Option<(Op, &'a [Token])>
    ensures { MatchOption result (NoOperator level tokens.now) (λ r. StartsOperator level r.0 tokens.now r.1.now) }
{
    let Some((token, rest)) = tokens.split_first() else {
        return None;
    };
    let Sort::Sign(number) = token.sort else {
        return None;
    };
    let Some(op) = operator(number) else {
        return None;
    };
    if operand_level(op) == level {
        Some((op, rest))
    } else {
        None
    }
}

/// The operator of two expressions with this sign.
fn operator(sign: u8) -> Option<Op>
    ensures { MatchOption result ((op : Op) → sign_of op ≡ sign → ⊥) (λ op. sign_of op ≡ sign) }
{
    match sign {
        0 => Some(Op::Add),
        1 => Some(Op::Sub),
        2 => Some(Op::And),
        3 => Some(Op::Or),
        4 => Some(Op::Xor),
        9 => Some(Op::Eq),
        10 => Some(Op::Ne),
        11 => Some(Op::Lt),
        12 => Some(Op::Le),
        13 => Some(Op::Gt),
        14 => Some(Op::Ge),
        15 => Some(Op::Both),
        16 => Some(Op::Either),
        _ => None,
    }
}

/// The level of the operands: those of a sum bind most tightly, those of `||` least.
fn operand_level(op: Op) -> u8
    ensures { result ≡ level_of op }
{
    match op {
        Op::Add | Op::Sub => 0,
        Op::And => 2,
        Op::Xor => 3,
        Op::Or => 4,
        Op::Eq | Op::Ne | Op::Lt | Op::Le | Op::Gt | Op::Ge => 5,
        Op::Both => 6,
        Op::Either => 7,
    }
}

/// The shift that the sign in front is.
pub fn shift_here<'a>(tokens: &'a [Token]) -> Option<(ShiftOp, &'a [Token])>
    ensures { MatchOption result (NoShift tokens.now) (λ r. StartsShift r.0 tokens.now r.1.now) }
{
    let Some((token, rest)) = tokens.split_first() else {
        return None;
    };
    match token.sort {
        Sort::Sign(6) => Some((ShiftOp::Left, rest)),
        Sort::Sign(7) => Some((ShiftOp::Right, rest)),
        Sort::Sign(8) => Some((ShiftOp::Rotate, rest)),
        _ => None,
    }
}
