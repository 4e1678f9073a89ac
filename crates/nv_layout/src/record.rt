// The record of an outline: its fields' names, its height, and copies of outlines.

ghost use Rattle.std.specs.Prelude.{◌≡◌, ◌<◌, ◌≤◌, ◌↔◌, ◌++◌, IsTrue, IfOk, OnOk, length};
ghost use Rattle.nv_ast.specs.Outline.{record_of, records_of, outline_height, highest_outline, highest_named_outline, named_list};
ghost use Rattle.nv_ast.specs.Tests.{names_of, has_twice};
ghost use Rattle.nv_layout.specs.OutlineView.{outline_tree, list_named_outlines, list_outlines};

use crate::outline::Outline;
use nv_ast::Name;
use nv_base::NoMemory;
use std::alloc::Global;
use std::collections::HashSet;

// Whether the record has a field.
#[cycle(has_field)]
#[tactic(auto, using(crate::proofs::Rows::parts_tree, crate::proofs::Rows::overlay_tree, crate::proofs::Rows::joined_tree))]
pub(crate) fn has_field(o: &Outline) -> bool
    ensures { IsTrue result ↔ (0 < length (record_of (outline_tree o.now))) }
{
    match o {
        Outline::Bits(_) | Outline::Gap(_) => false,
        Outline::Parts(fs) | Outline::Overlay(fs) => !fs.is_empty(),
        Outline::Joined(os) => has_joined_field(os),
    }
}

#[cycle(has_field)]
fn has_joined_field(os: &[Outline]) -> bool
    ensures { IsTrue result ↔ (0 < length (records_of (list_outlines os.now))) }
{
    for o in os {
        if has_field(o) {
            return true;
        }
    }
    false
}

// Whether the height is at most this.
#[cycle(is_within)]
#[tactic(auto, using(crate::proofs::Rows::parts_tree, crate::proofs::Rows::overlay_tree, crate::proofs::Rows::joined_tree))]
pub(crate) fn is_within(o: &Outline, height: u32) -> bool
    ensures { IsTrue result ↔ (outline_height (outline_tree o.now) ≤ height) }
{
    if height == 0 {
        return false;
    }
    match o {
        Outline::Bits(_) | Outline::Gap(_) => true,
        Outline::Parts(fs) | Outline::Overlay(fs) => are_named_within(fs, height - 1),
        Outline::Joined(os) => are_within(os, height - 1),
    }
}

#[cycle(is_within)]
fn are_named_within(fs: &[(Name, Outline)], height: u32) -> bool
    ensures { IsTrue result ↔ (highest_named_outline (list_named_outlines fs.now) ≤ height) }
{
    for f in fs {
        if !is_within(&f.1, height) {
            return false;
        }
    }
    true
}

#[cycle(is_within)]
fn are_within(os: &[Outline], height: u32) -> bool
    ensures { IsTrue result ↔ (highest_outline (list_outlines os.now) ≤ height) }
{
    for o in os {
        if !is_within(o, height) {
            return false;
        }
    }
    true
}

// Whether two fields of the record have one name.
pub(crate) fn repeats_a_name(alloc: Global, o: &Outline) -> Result<bool, NoMemory>
    ensures { IfOk result (λ b. b ≡ has_twice (names_of (record_of (outline_tree o.now)))) }
{
    let mut names = Vec::new(alloc);
    add_names(o, &mut names)?;
    has_repeats(alloc, &names)
}

// Adds the names of the record's fields.
#[cycle(add_names)]
#[tactic(auto, using(crate::proofs::Rows::parts_tree, crate::proofs::Rows::overlay_tree, crate::proofs::Rows::joined_tree))]
fn add_names(o: &Outline, names: &mut Vec<Name>) -> Result<(), NoMemory>
    ensures { OnOk result (names.new.items ≡ names.old.items ++ names_of (record_of (outline_tree o.now))) }
{
    match o {
        Outline::Bits(_) | Outline::Gap(_) => Ok(()),
        Outline::Parts(fs) | Outline::Overlay(fs) => add_field_names(fs, names),
        Outline::Joined(os) => add_joined_names(os, names),
    }
}

fn add_field_names(fs: &[(Name, Outline)], names: &mut Vec<Name>) -> Result<(), NoMemory>
    ensures { OnOk result (names.new.items ≡ names.old.items ++ names_of (named_list (list_named_outlines fs.now))) }
{
    for f in fs {
        names.push(f.0.clone()?)?;
    }
    Ok(())
}

#[cycle(add_names)]
fn add_joined_names(os: &[Outline], names: &mut Vec<Name>) -> Result<(), NoMemory>
    ensures { OnOk result (names.new.items ≡ names.old.items ++ names_of (records_of (list_outlines os.now))) }
{
    for o in os {
        add_names(o, names)?;
    }
    Ok(())
}

// Whether some name is there twice.
fn has_repeats(alloc: Global, names: &[Name]) -> Result<bool, NoMemory>
    ensures { IfOk result (λ b. b ≡ has_twice names.now) }
{
    let mut seen = HashSet::new(alloc);
    for name in names {
        if !seen.insert(name.clone()?)? {
            return Ok(true);
        }
    }
    Ok(false)
}

// A copy of an outline.
#[cycle(copy)]
#[tactic(auto, using(crate::proofs::Rows::parts_tree, crate::proofs::Rows::overlay_tree, crate::proofs::Rows::joined_tree))]
pub(crate) fn copy(alloc: Global, o: &Outline) -> Result<Outline, NoMemory>
    ensures { IfOk result (λ c. outline_tree c ≡ outline_tree o.now) }
{
    Ok(match o {
        Outline::Bits(n) => Outline::Bits(*n),
        Outline::Gap(n) => Outline::Gap(*n),
        Outline::Parts(fs) => Outline::Parts(copy_named(alloc, fs)?),
        Outline::Overlay(fs) => Outline::Overlay(copy_named(alloc, fs)?),
        Outline::Joined(os) => Outline::Joined(copy_all(alloc, os)?),
    })
}

#[cycle(copy)]
fn copy_named(alloc: Global, fs: &[(Name, Outline)]) -> Result<Vec<(Name, Outline)>, NoMemory>
    ensures { IfOk result (λ copies. list_named_outlines copies.items ≡ list_named_outlines fs.now) }
{
    let mut copies = Vec::new(alloc);
    for f in fs {
        let o = copy(alloc, &f.1)?;
        copies.push((f.0.clone()?, o))?;
    }
    Ok(copies)
}

#[cycle(copy)]
fn copy_all(alloc: Global, os: &[Outline]) -> Result<Vec<Outline>, NoMemory>
    ensures { IfOk result (λ copies. list_outlines copies.items ≡ list_outlines os.now) }
{
    let mut copies = Vec::new(alloc);
    for o in os {
        copies.push(copy(alloc, o)?)?;
    }
    Ok(copies)
}
