// How often each variable of a label is used. It needs no contract: it tells only what is worth its place.

use flow_ir::{Label, Tree};
use nv_base::{Atom, NoMemory, Prim};
use std::alloc::Global;

// One use more.
fn note(uses: &mut Vec<u32>, a: Atom) -> Result<(), NoMemory> {
    if let Atom::Var(x) = a {
        let i = x as usize;
        while uses.len() <= i {
            uses.push(0)?;
        }
        uses[i] = uses[i].saturating_add(1);
    }
    Ok(())
}

fn note_all(uses: &mut Vec<u32>, atoms: &[Atom]) -> Result<(), NoMemory> {
    for a in atoms {
        note(uses, *a)?;
    }
    Ok(())
}

fn note_prim(uses: &mut Vec<u32>, p: Prim) -> Result<(), NoMemory> {
    match p {
        Prim::Same(a) => note(uses, a),
        Prim::Una(_, a) => note(uses, a),
        Prim::Bin(_, a, b) => {
            note(uses, a)?;
            note(uses, b)
        }
    }
}

fn note_tree(uses: &mut Vec<u32>, t: &Tree) -> Result<(), NoMemory> {
    let mut cur = t;
    'spine: loop {
        match cur {
            Tree::Let(_, p, rest) => {
                note_prim(uses, *p)?;
                cur = rest;
            }
            Tree::Read(_, _, a, rest) => {
                note(uses, *a)?;
                cur = rest;
            }
            Tree::Write(_, a, bs, rest) => {
                note(uses, *a)?;
                note_all(uses, bs)?;
                cur = rest;
            }
            Tree::If(_, a, b, first, second) => {
                note(uses, *a)?;
                note(uses, *b)?;
                note_tree(uses, first)?;
                cur = second;
            }
            Tree::Jump(_, bs) => return note_all(uses, bs),
            Tree::Halt(_, bs) => return note_all(uses, bs),
        }
    }
}

/// How often each variable of a label is used.
pub fn uses_of(alloc: Global, l: &Label) -> Result<Vec<u32>, NoMemory> {
    let mut uses = Vec::new(alloc);
    note_tree(&mut uses, &l.body)?;
    Ok(uses)
}
