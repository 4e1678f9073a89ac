//! The flat form.

use crate::page::{Page, small};
use flat_ir::{Flat, FlatFun, FlatProgram};
use nv_base::NoMemory;
use std::alloc::Global;

// What is still to be printed of a function, the last one first.
#[derive(Clone, Copy)]
enum Rest<'a> {
    Code(&'a Flat, u32),
    Bound(u32),
    Handled(u16, &'a [u32], u32),
    Closed(u32),
}

/// All functions.
pub fn print_flat(alloc: Global, page: &mut Page, f: &FlatProgram) -> Result<(), NoMemory> {
    for i in 0..f.funs.len() {
        if let Some(g) = f.funs.get(i) {
            print_function(alloc, page, small(i), g)?;
        }
    }
    Ok(())
}

fn print_function(alloc: Global, page: &mut Page, i: u32, f: &FlatFun) -> Result<(), NoMemory> {
    page.put("function ");
    page.number(i);
    page.parameters(&f.params);
    page.put(" gives ");
    page.number(f.results);
    page.put(", group ");
    page.number(f.group);
    page.put("\n");
    let mut work = Vec::new(alloc);
    work.push(Rest::Code(&f.body, 1))?;
    for _ in 0..u64::MAX {
        match work.pop() {
            Some(Rest::Code(t, depth)) => print_node(page, &mut work, t, depth)?,
            Some(Rest::Bound(depth)) => page.closed(depth),
            Some(Rest::Handled(e, xs, depth)) => print_handler(page, e, xs, depth),
            Some(Rest::Closed(depth)) => page.closed(depth),
            None => return Ok(()),
        }
    }
    Ok(())
}

fn print_handler(page: &mut Page, e: u16, xs: &[u32], depth: u32) {
    page.line(depth);
    page.put("} handle ");
    page.number(e as u32);
    page.parameters(xs);
    page.put("\n");
}

// One node; what it goes on with is put in front of the rest.
fn print_node<'a>(
    page: &mut Page,
    work: &mut Vec<Rest<'a>>,
    t: &'a Flat,
    depth: u32,
) -> Result<(), NoMemory> {
    match t {
        Flat::Let(x, p, rest) => {
            page.computed(depth, *x, p);
            work.push(Rest::Code(rest, depth))?;
        }
        Flat::Fetch(m, xs, a, rest) => {
            page.fetched(depth, *m, xs, a);
            work.push(Rest::Code(rest, depth))?;
        }
        Flat::Store(m, a, bs, rest) => {
            page.stored(depth, *m, a, bs);
            work.push(Rest::Code(rest, depth))?;
        }
        Flat::If(c, a, b, first, second) => {
            page.compared(depth, c, a, b);
            work.push(Rest::Code(second, depth))?;
            work.push(Rest::Closed(depth))?;
            work.push(Rest::Code(first, depth.saturating_add(1)))?;
        }
        Flat::Bind(xs, first, rest) => {
            page.line(depth);
            page.variables(xs);
            page.put(" = {\n");
            work.push(Rest::Code(rest, depth))?;
            work.push(Rest::Bound(depth))?;
            work.push(Rest::Code(first, depth.saturating_add(1)))?;
        }
        Flat::Try(first, e, xs, handler) => {
            page.line(depth);
            page.put("try {\n");
            work.push(Rest::Code(handler, depth))?;
            work.push(Rest::Handled(*e, xs, depth))?;
            work.push(Rest::Code(first, depth.saturating_add(1)))?;
        }
        Flat::Call(f, bs) => page.going(depth, "call ", *f, bs),
        Flat::Raise(e, bs) => page.going(depth, "raise ", *e as u32, bs),
        Flat::Give(bs) => {
            page.line(depth);
            page.put("give ");
            page.words(bs);
            page.put("\n");
        }
    }
    Ok(())
}
