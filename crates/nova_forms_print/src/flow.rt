//! The flow form.

use crate::page::{Page, small};
use flow_ir::{Flow, Label, Tree};
use nv_base::NoMemory;
use std::alloc::Global;

// What is still to be printed of a label, the last one first.
#[derive(Clone, Copy)]
enum Rest<'a> {
    Code(&'a Tree, u32),
    Closed(u32),
}

/// All labels.
pub fn print_flow(alloc: Global, page: &mut Page, f: &Flow) -> Result<(), NoMemory> {
    for i in 0..f.labels.len() {
        if let Some(l) = f.labels.get(i) {
            print_label(alloc, page, small(i), l)?;
        }
    }
    Ok(())
}

fn print_label(alloc: Global, page: &mut Page, i: u32, l: &Label) -> Result<(), NoMemory> {
    page.put("label ");
    page.number(i);
    page.parameters(&l.params);
    page.put("\n");
    let mut work = Vec::new(alloc);
    work.push(Rest::Code(&l.body, 1))?;
    for _ in 0..u64::MAX {
        match work.pop() {
            Some(Rest::Code(t, depth)) => print_node(page, &mut work, t, depth)?,
            Some(Rest::Closed(depth)) => page.closed(depth),
            None => return Ok(()),
        }
    }
    Ok(())
}

fn print_node<'a>(
    page: &mut Page,
    work: &mut Vec<Rest<'a>>,
    t: &'a Tree,
    depth: u32,
) -> Result<(), NoMemory> {
    match t {
        Tree::Let(x, p, rest) => {
            page.computed(depth, *x, p);
            work.push(Rest::Code(rest, depth))?;
        }
        Tree::Read(m, xs, a, rest) => {
            page.fetched(depth, *m, xs, a);
            work.push(Rest::Code(rest, depth))?;
        }
        Tree::Write(m, a, bs, rest) => {
            page.stored(depth, *m, a, bs);
            work.push(Rest::Code(rest, depth))?;
        }
        Tree::If(c, a, b, first, second) => {
            page.compared(depth, c, a, b);
            work.push(Rest::Code(second, depth))?;
            work.push(Rest::Closed(depth))?;
            work.push(Rest::Code(first, depth.saturating_add(1)))?;
        }
        Tree::Jump(l, bs) => page.going(depth, "jump ", *l, bs),
        Tree::Halt(e, bs) => page.halted(depth, *e, bs),
    }
    Ok(())
}
