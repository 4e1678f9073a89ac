// A search by a given choice of columns.
use std::alloc::{AllocError, Global};
use zo_cert::{Cert, CertNode};
use zo_model::{Row, ZeroOne, is_valid};
use zo_solve::{Pick, Solved, first_choice, solve};

type Terms<'a> = &'a [(u32, i32)];

/// A program of these costs and rows.
fn program(alloc: Global, costs: &[u32], rows: &[(Terms, i32)]) -> Result<ZeroOne, AllocError> {
    let costs = Vec::from_slice(alloc, costs)?;
    let mut list = Vec::new(alloc);
    for (terms, least) in rows {
        let terms = Vec::from_slice(alloc, terms)?;
        list.push(Row {
            terms,
            least: *least,
        })?;
    }
    Ok(ZeroOne { costs, rows: list })
}

/// Twice the sum of three columns is 3.
fn odd_sum(alloc: Global) -> Result<ZeroOne, AllocError> {
    program(
        alloc,
        &[0, 0, 0],
        &[
            (&[(0, 2), (1, 2), (2, 2)], 3),
            (&[(0, -2), (1, -2), (2, -2)], -3),
        ],
    )
}

/// How many nodes branch, and how many are left.
fn counts(tree: &Cert) -> (u64, u64) {
    let mut branches: u64 = 0;
    let mut lefts: u64 = 0;
    for node in &tree.nodes {
        match node {
            CertNode::Branch(_) => branches = branches.saturating_add(1),
            CertNode::Left => lefts = lefts.saturating_add(1),
            CertNode::Bound(..) | CertNode::Clash(..) => {}
        }
    }
    (branches, lefts)
}

#[test]
fn an_odd_sum_is_cut_off_after_one_branch(rt: HostRuntime) {
    let z = odd_sum(rt.alloc()).expect(&rt, "memory");
    assert!(rt; is_valid(&z));
    let pick = Pick::new(first_choice);
    match solve(rt.alloc(), &z, None, 1, &pick) {
        Ok(Solved::Spent(tree)) => assert_eq!(rt; counts(&tree), (1, 2)),
        _ => assert!(rt; false),
    }
}
