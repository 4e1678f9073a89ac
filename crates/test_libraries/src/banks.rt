// The 0-1 program of a sum of two parameters, and a placement that comes back from its vector.
use crate::sum::sum;
use bank_prog::build;
use place_ir_checks::{Weights, spill_all};
use reg_assign::{assign, from_placement};
use ssu_ir::single;
use std::test::Fail;

#[test]
fn a_sum_has_a_program(rt: HostRuntime) -> Result<(), Fail> {
    let s = sum(rt.alloc())?;
    assert!(rt; single(&s));
    let w = Weights::new(Vec::new(rt.alloc()));
    match build(rt.alloc(), &s, 128, &w) {
        Ok(z) => {
            assert_eq!(rt; z.costs.len(), 63);
            assert_eq!(rt; z.rows.len(), 156);
        }
        Err(_) => assert!(rt; false),
    }
    Ok(())
}

#[test]
fn a_placement_comes_back(rt: HostRuntime) -> Result<(), Fail> {
    let s = sum(rt.alloc())?;
    assert!(rt; single(&s));
    match spill_all(rt.alloc(), &s, 128) {
        Ok(p) => {
            let x = from_placement(rt.alloc(), &s, &p)?;
            assert_eq!(rt; x.on.len(), 63);
            let q = assign(rt.alloc(), &s, p.slots, &x)?;
            assert_eq!(rt; q.homes.len(), 3);
            assert_eq!(rt; q.serves.len(), 3);
        }
        Err(_) => assert!(rt; false),
    }
    Ok(())
}
