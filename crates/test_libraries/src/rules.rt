// A rule of a caller's own.
use cps_rules::{Rule, simplify};
use flow_ir::{Flow, Label, Tree};
use nv_base::{Args, Atom, Bin, NoMemory, Prim, Una};
use std::alloc::Global;
use std::test::Fail;

// One label that ends with its parameter and a literal by exclusive or.
fn turned(alloc: Global) -> Result<Flow, NoMemory> {
    let mut params = Vec::new(alloc);
    params.push(0)?;
    let mut result = Args::new(alloc);
    result.push(Atom::Var(1))?;
    let other = Prim::Bin(Bin::Xor, Atom::Var(0), Atom::Lit(0xFFFF_FFFF));
    let body = Tree::Let(1, other, Box::new(alloc, Tree::Halt(0, result))?);
    let mut labels = Vec::new(alloc);
    labels.push(Label { params, body })?;
    Ok(Flow { labels })
}

#[test]
fn a_rule_of_its_own_turns_the_bits_over(rt: HostRuntime) -> Result<(), Fail> {
    let alloc = rt.alloc();
    let rule = Rule::new(|p: &Prim| match p {
        Prim::Bin(Bin::Xor, a, Atom::Lit(0xFFFF_FFFF)) => Some(Prim::Una(Una::Not, *a)),
        _ => None,
    });
    let simple = simplify(alloc, turned(alloc)?, &rule)?;
    assert!(rt;
        matches!(simple.labels.get(0), Some(l) if matches!(&l.body, Tree::Let(_, Prim::Una(Una::Not, Atom::Var(0)), _)))
    );
    Ok(())
}
