//! The single-use form, with its points and the live values at each.

ghost use Rattle.std.specs.Prelude.{◌≡◌, true};
ghost use Rattle.ssu_ir.specs.Single.{single};
ghost use Rattle.ssu_ir.specs.View.{labels_view};

use crate::page::{Page, binary_sign, comparison_sign, small};
use nv_base::{Mem, NoMemory, Una};
use ssu_ir::{NodeId, Ssu, SsuNode, size};
use ssu_liveness::{held, peak};
use std::alloc::Global;

// A line of a label's body: a node, or the end of an arm; with how far right it stands.
#[derive(Clone, Copy)]
enum Line {
    Node(NodeId, u32),
    Closed(u32),
}

/// All labels; after each line its point, and the live values there.
pub fn print_single_use(alloc: Global, page: &mut Page, s: &Ssu) -> Result<(), NoMemory>
    requires { single (labels_view s.now) ≡ true }
{
    let rows = held(alloc, s)?;
    let mut point = 0;
    for k in 0..s.labels.len() {
        if let Some(l) = s.labels.get(k) {
            page.put("label ");
            page.number(small(k));
            page.parameters(&l.params);
            print_point(page, &rows, point);
            let lines = lines_of(alloc, s, l.body)?;
            point = print_lines(page, s, &rows, &lines, point.saturating_add(1));
        }
    }
    Ok(())
}

/// How large a form is: its labels, its size, and the most live values at a point.
pub fn print_measures(alloc: Global, page: &mut Page, s: &Ssu) -> Result<(), NoMemory>
    requires { single (labels_view s.now) ≡ true }
{
    page.put("# measures: ");
    page.count(s.labels.len() as u64);
    page.put(" labels, size ");
    page.count(size(alloc, s)?);
    page.put(", peak ");
    page.count(peak(alloc, s)? as u64);
    page.put("\n");
    Ok(())
}

// The lines of a body, in the order of its points.
fn lines_of(alloc: Global, s: &Ssu, body: NodeId) -> Result<Vec<Line>, NoMemory> {
    let mut lines = Vec::new(alloc);
    let mut work = Vec::new(alloc);
    work.push(Line::Node(body, 1))?;
    for _ in 0..u64::MAX {
        let Some(line) = work.pop() else {
            return Ok(lines);
        };
        lines.push(line)?;
        push_rest(&mut work, s, line)?;
    }
    Ok(lines)
}

// What comes after a line, the last line first.
fn push_rest(work: &mut Vec<Line>, s: &Ssu, line: Line) -> Result<(), NoMemory> {
    match line {
        Line::Node(id, depth) => match s.nodes.get(id.0) {
            Some(n) => push_successors(work, n, depth),
            None => Ok(()),
        },
        Line::Closed(_) => Ok(()),
    }
}

// Prints lines, the first of which may be at this point, and tells the point after them.
fn print_lines(page: &mut Page, s: &Ssu, rows: &[Vec<u32>], lines: &[Line], point: usize) -> usize {
    let mut at = point;
    for line in lines {
        match line {
            Line::Node(id, depth) => {
                page.line(*depth);
                print_numbered(page, s, *id);
                print_point(page, rows, at);
                at = at.saturating_add(1);
            }
            Line::Closed(depth) => page.closed(*depth),
        }
    }
    at
}

fn print_numbered(page: &mut Page, s: &Ssu, id: NodeId) {
    match s.nodes.get(id.0) {
        Some(n) => print_node(page, n),
        None => {}
    }
}

// The end of a line: the number of its point, and what is held there.
fn print_point(page: &mut Page, rows: &[Vec<u32>], point: usize) {
    page.put("  # ");
    page.number(small(point));
    page.put(":");
    if let Some(row) = rows.get(point) {
        for x in row {
            page.put(" ");
            page.variable(*x);
        }
    }
    page.put("\n")
}

// The nodes after a node, the last one first; the first arm of a comparison ends with a line.
fn push_successors(work: &mut Vec<Line>, n: &SsuNode, depth: u32) -> Result<(), NoMemory> {
    match n {
        SsuNode::Lit(_, _, next) => work.push(Line::Node(*next, depth))?,
        SsuNode::Una(_, _, _, next) => work.push(Line::Node(*next, depth))?,
        SsuNode::Bin(_, _, _, _, next) => work.push(Line::Node(*next, depth))?,
        SsuNode::Clone(_, _, next) => work.push(Line::Node(*next, depth))?,
        SsuNode::Read(_, _, _, next) => work.push(Line::Node(*next, depth))?,
        SsuNode::Write(_, _, _, next) => work.push(Line::Node(*next, depth))?,
        SsuNode::If(_, _, _, first, second) => {
            work.push(Line::Node(*second, depth))?;
            work.push(Line::Closed(depth))?;
            work.push(Line::Node(*first, depth.saturating_add(1)))?;
        }
        SsuNode::Jump(_, _) => {}
        SsuNode::Halt(_, _) => {}
    }
    Ok(())
}

fn print_node(page: &mut Page, n: &SsuNode) {
    match n {
        SsuNode::Lit(x, v, _) => {
            print_target(page, *x);
            page.literal(*v)
        }
        SsuNode::Una(x, op, y, _) => {
            print_target(page, *x);
            print_unary(page, op, *y)
        }
        SsuNode::Bin(x, op, y, z, _) => {
            print_target(page, *x);
            page.variable(*y);
            page.put(binary_sign(op));
            page.variable(*z)
        }
        SsuNode::Clone(xs, y, _) => {
            page.variables(xs);
            page.put(" = clone ");
            page.variable(*y)
        }
        SsuNode::Read(m, xs, y, _) => print_read(page, *m, xs, *y),
        SsuNode::Write(m, y, xs, _) => print_write(page, *m, *y, xs),
        SsuNode::If(c, x, y, _, _) => {
            page.put("if ");
            page.variable(*x);
            page.put(comparison_sign(c));
            page.variable(*y);
            page.put(" {")
        }
        SsuNode::Jump(l, xs) => {
            page.put("jump ");
            page.number(*l);
            page.parameters(xs)
        }
        SsuNode::Halt(e, xs) => {
            page.ending(*e);
            page.parameters(xs)
        }
    }
}

fn print_target(page: &mut Page, x: u32) {
    page.variable(x);
    page.put(" = ")
}

fn print_unary(page: &mut Page, op: &Una, y: u32) {
    match op {
        Una::Not => {
            page.put("~");
            page.variable(y)
        }
        Una::Shl(k) => print_shift(page, y, " << ", *k),
        Una::Shr(k) => print_shift(page, y, " >> ", *k),
        Una::Rol(k) => print_shift(page, y, " rol ", *k),
    }
}

fn print_shift(page: &mut Page, y: u32, sign: &str, k: u8) {
    page.variable(y);
    page.put(sign);
    page.number(k as u32)
}

fn print_read(page: &mut Page, m: Mem, xs: &[u32], y: u32) {
    page.variables(xs);
    page.put(" = ");
    page.memory(m);
    page.put("[");
    page.number(small(xs.len()));
    page.put("](");
    page.variable(y);
    page.put(")")
}

fn print_write(page: &mut Page, m: Mem, y: u32, xs: &[u32]) {
    page.memory(m);
    page.put("(");
    page.variable(y);
    page.put(") <- ");
    page.variables(xs)
}
