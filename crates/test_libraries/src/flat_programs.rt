// Code of more steps than any source has.
use flat_ir::{Flat, Step, join};
use nv_base::{Atom, Prim};
use std::test::Fail;

#[test]
fn long_code_is_joined_and_dropped(rt: HostRuntime) -> Result<(), Fail> {
    let alloc = rt.alloc();
    let mut steps = Vec::new(alloc);
    for x in 0..100_000 {
        steps.push(Step::Let(x, Prim::Same(Atom::Lit(x))))?;
    }
    let code = join(alloc, steps, Flat::Give(Vec::new(alloc)))?;
    assert!(rt; matches!(&code, Flat::Let(0, _, _)));
    drop(code);
    Ok(())
}
