//! Names in patterns, and names that stand twice.

use nv_ast::{Name, Pat};
use nv_lines::Message;

/// Adds the names in a pattern.
#[cycle(names)]
pub fn add_names<'a>(out: &mut Message, p: &'a Pat, names: &mut Vec<&'a Name>) {
    match p {
        Pat::Name(x) => out.keep(names, x),
        Pat::Any => {}
        Pat::Tuple(ps) => add_all_names(out, ps, names),
    }
}

/// Adds the names in some patterns.
#[cycle(names)]
pub fn add_all_names<'a>(out: &mut Message, ps: &'a [Pat], names: &mut Vec<&'a Name>) {
    for p in ps {
        add_names(out, p, names);
    }
}

/// Whether the name of a place stands at an earlier one.
pub fn stands_before(names: &[&Name], place: usize, name: &Name) -> bool {
    for (n, it) in names.iter().enumerate() {
        if n >= place {
            return false;
        }
        if *it == name {
            return true;
        }
    }
    false
}
