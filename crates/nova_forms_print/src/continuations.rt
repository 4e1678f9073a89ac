//! The continuation form.

use crate::page::{Page, small};
use cps_ir::{Cont, Cps, CpsFun, Term};
use nv_base::NoMemory;
use std::alloc::Global;

// What is still to be printed of a label, the last one first.
#[derive(Clone, Copy)]
enum Rest<'a> {
    Code(&'a Term, u32),
    Closed(u32),
}

/// All functions.
pub fn print_cps(alloc: Global, page: &mut Page, c: &Cps) -> Result<(), NoMemory> {
    for i in 0..c.funs.len() {
        if let Some(f) = c.funs.get(i) {
            print_function(alloc, page, small(i), f)?;
        }
    }
    Ok(())
}

// A function, and after it the labels that are made in it, outer ones first.
fn print_function(alloc: Global, page: &mut Page, i: u32, f: &CpsFun) -> Result<(), NoMemory> {
    page.put("function ");
    page.number(i);
    page.parameters(&f.params);
    page.put(" returns ");
    page.number(f.results);
    page.put(", group ");
    page.number(f.group);
    page.put("\n");
    let mut labels = Vec::new(alloc);
    print_code(alloc, page, &mut labels, &f.body)?;
    for at in 0..usize::MAX {
        let found: Option<&&Cont> = labels.get(at);
        match found {
            Some(c) => {
                let cont: &Cont = *c;
                page.put(" label ");
                page.number(cont.label);
                page.parameters(&cont.params);
                page.put("\n");
                print_code(alloc, page, &mut labels, &cont.body)?;
            }
            None => return Ok(()),
        }
    }
    Ok(())
}

// A term; the labels that it makes are added to those that are still to be printed.
fn print_code<'a>(
    alloc: Global,
    page: &mut Page,
    labels: &mut Vec<&'a Cont>,
    t: &'a Term,
) -> Result<(), NoMemory> {
    let mut work = Vec::new(alloc);
    work.push(Rest::Code(t, 1))?;
    for _ in 0..u64::MAX {
        match work.pop() {
            Some(Rest::Code(t, depth)) => print_node(page, &mut work, labels, t, depth)?,
            Some(Rest::Closed(depth)) => page.closed(depth),
            None => return Ok(()),
        }
    }
    Ok(())
}

fn print_node<'a>(
    page: &mut Page,
    work: &mut Vec<Rest<'a>>,
    labels: &mut Vec<&'a Cont>,
    t: &'a Term,
    depth: u32,
) -> Result<(), NoMemory> {
    match t {
        Term::Let(x, p, rest) => {
            page.computed(depth, *x, p);
            work.push(Rest::Code(rest, depth))?;
        }
        Term::Read(m, xs, a, rest) => {
            page.fetched(depth, *m, xs, a);
            work.push(Rest::Code(rest, depth))?;
        }
        Term::Write(m, a, bs, rest) => {
            page.stored(depth, *m, a, bs);
            work.push(Rest::Code(rest, depth))?;
        }
        Term::If(c, a, b, first, second) => {
            page.compared(depth, c, a, b);
            work.push(Rest::Code(second, depth))?;
            work.push(Rest::Closed(depth))?;
            work.push(Rest::Code(first, depth.saturating_add(1)))?;
        }
        Term::Fix(conts, rest) => {
            for c in conts {
                labels.push(c)?;
            }
            work.push(Rest::Code(rest, depth))?;
        }
        Term::Call(f, bs, to, handlers) => {
            page.line(depth);
            page.put("call ");
            page.number(*f);
            page.words(bs);
            print_ways(page, *to, handlers);
            page.put("\n");
        }
        Term::Return(bs) => {
            page.line(depth);
            page.put("return ");
            page.words(bs);
            page.put("\n");
        }
        Term::Throw(e, bs) => page.going(depth, "throw ", *e as u32, bs),
        Term::Jump(l, bs) => page.going(depth, "jump ", *l, bs),
        Term::Halt(e, bs) => page.halted(depth, *e, bs),
    }
    Ok(())
}

// Where a call goes on: ` to 3, 1 to 4` are the label of its words, and that of exception 1.
fn print_ways(page: &mut Page, to: Option<u32>, handlers: &[(u16, u32)]) {
    match to {
        Some(label) => {
            page.put(" to ");
            page.number(label);
        }
        None => {}
    }
    for h in handlers {
        page.put(", ");
        page.number(h.0 as u32);
        page.put(" to ");
        page.number(h.1);
    }
}
