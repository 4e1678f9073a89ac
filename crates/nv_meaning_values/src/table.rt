// What a program declares, found by name.
ghost use Rattle.std.specs.Prelude.{◌≡◌, ◌≤◌, ◌+◌, ◌++◌, ℕ, List, [], ◌∷◌, ◌<◌, false, None, Some, bytes_eq, length, map, option_map, slice_get, if◌then◌else◌, IfOk, OnOk, MatchOption};
ghost use Rattle.std.specs.HashMap.{get_by};
ghost use Rattle.nv_ast.specs.LayoutView.{layout_tree};
ghost use Rattle.nv_ast.specs.Tree.{NamedLayout};
ghost use Rattle.nv_ast.specs.Exceptions.{exceptions as exception_count};
ghost use Rattle.nv_ast.specs.ProgramView.{fun_tree, decl_tree};
ghost use Rattle.nv_meaning_values.specs.inner.Tables.{place_from, or_else, laid, layout_pairs, functions_in, layouts_in, exceptions_in, is_alias};
ghost use Rattle.nv_meaning_values.specs.inner.Sizes.{sizes_of};

use crate::exceptions::exception_at;
use crate::sizes::{name_size, sizes};
use nv_ast::{Decl, Fun, LayoutText, Name, Program};
use nv_base::NoMemory;
use std::alloc::Global;
use std::collections::HashMap;

/// The place of the first of each name.
pub type NameIndices<'a> = HashMap<&'a Name, usize>;

/// The functions, layouts and exceptions of a program in order, where the first of each name stands,
/// and the size of each layout in bits.
#[derive(Drop)]
pub struct Table<'a> {
    pub functions: Vec<&'a Fun>,
    pub layouts: Vec<(&'a Name, &'a LayoutText)>,
    pub exceptions: Vec<&'a Name>,
    pub function_places: NameIndices<'a>,
    pub layout_places: NameIndices<'a>,
    pub exception_places: NameIndices<'a>,
    pub sizes: Vec<u64>,
    ghost few_exceptions: { length exceptions.items ≤ 65535 },
    ghost functions_found: { (x : List ℕ) → get_by (λ key. bytes_eq x key.now) function_places ≡ place_from 0 x (map (λ f. f.now.name) functions.items) },
    ghost layouts_found: { (x : List ℕ) → get_by (λ key. bytes_eq x key.now) layout_places ≡ place_from 0 x (map (λ l. l.0.now) layouts.items) },
    ghost sizes_known: { sizes.items ≡ sizes_of (laid [] (layout_pairs layouts.items)) },
    ghost exceptions_found: { (x : List ℕ) → get_by (λ key. bytes_eq x key.now) exception_places ≡ place_from 0 x (map (λ x. x.now) exceptions.items) },
}

// Notes the place of a name, where it has none yet.
fn declare<'a>(places: &mut NameIndices<'a>, name: &'a Name, place: usize) -> Result<(), NoMemory>
    ensures { OnOk result ((x : List ℕ) → get_by (λ key. bytes_eq x key.now) places.new ≡ or_else (get_by (λ key. bytes_eq x key.now) places.old) (if bytes_eq x name.now then Some place else None)) }
{
    if places.get(&name).is_none() {
        places.insert(name, place)?;
    }
    Ok(())
}

fn functions<'a>(alloc: Global, decls: &'a [Decl]) -> Result<Vec<&'a Fun>, NoMemory>
    ensures { IfOk result (λ fs. map (λ f. fun_tree f.now) fs.items ≡ functions_in (map decl_tree decls.now)) }
{
    let mut functions = Vec::new(alloc);
    for decl in decls {
        add_functions(decl, &mut functions)?;
    }
    Ok(functions)
}

// Adds the functions of a declaration.
fn add_functions<'a>(decl: &'a Decl, functions: &mut Vec<&'a Fun>) -> Result<(), NoMemory>
    ensures { OnOk result (map (λ f. fun_tree f.now) functions.new.items ≡ map (λ f. fun_tree f.now) functions.old.items ++ functions_in (decl_tree decl.now ∷ [])) }
{
    match decl {
        Decl::Group(group) => add_group(group, functions),
        Decl::Layout(_, _, _) => Ok(()),
        Decl::Exception(_, _, _) => Ok(()),
    }
}

fn add_group<'a>(group: &'a [Fun], functions: &mut Vec<&'a Fun>) -> Result<(), NoMemory>
    ensures { OnOk result (map (λ f. fun_tree f.now) functions.new.items ≡ map (λ f. fun_tree f.now) functions.old.items ++ map fun_tree group.now) }
{
    for f in group {
        functions.push(f)?;
    }
    Ok(())
}

fn layouts<'a>(
    alloc: Global,
    decls: &'a [Decl],
) -> Result<Vec<(&'a Name, &'a LayoutText)>, NoMemory>
    ensures { IfOk result (λ ls. layout_pairs ls.items ≡ layouts_in (map decl_tree decls.now)) }
{
    let mut layouts = Vec::new(alloc);
    for decl in decls {
        add_layout(decl, &mut layouts)?;
    }
    Ok(layouts)
}

// Adds the layout of a declaration, if it is one.
fn add_layout<'a>(
    decl: &'a Decl,
    layouts: &mut Vec<(&'a Name, &'a LayoutText)>,
) -> Result<(), NoMemory>
    ensures { OnOk result (layout_pairs layouts.new.items ≡ layout_pairs layouts.old.items ++ layouts_in (decl_tree decl.now ∷ [])) }
{
    match decl {
        Decl::Layout(x, l, _) => {
            layouts.push((x, l))?;
            Ok(())
        }
        Decl::Group(_) => Ok(()),
        Decl::Exception(_, _, _) => Ok(()),
    }
}

fn exceptions<'a>(alloc: Global, decls: &'a [Decl]) -> Result<Vec<&'a Name>, NoMemory>
    ensures names { IfOk result (λ xs. map (λ x. x.now) xs.items ≡ exceptions_in (map decl_tree decls.now)) }
    ensures count { IfOk result (λ xs. length xs.items ≡ exception_count decls.now) }
{
    let mut exceptions = Vec::new(alloc);
    for decl in decls {
        add_exception(decl, &mut exceptions)?;
    }
    Ok(exceptions)
}

// Adds the exception of a declaration, if it is one.
fn add_exception<'a>(decl: &'a Decl, exceptions: &mut Vec<&'a Name>) -> Result<(), NoMemory>
    ensures names { OnOk result (map (λ x. x.now) exceptions.new.items ≡ map (λ x. x.now) exceptions.old.items ++ exceptions_in (decl_tree decl.now ∷ [])) }
    ensures count { OnOk result (length exceptions.new.items ≡ length exceptions.old.items + exception_count (decl.now ∷ [])) }
{
    match decl {
        Decl::Exception(x, _, _) => {
            exceptions.push(x)?;
            Ok(())
        }
        Decl::Group(_) => Ok(()),
        Decl::Layout(_, _, _) => Ok(()),
    }
}

fn function_places<'a>(alloc: Global, functions: &[&'a Fun]) -> Result<NameIndices<'a>, NoMemory>
    ensures { IfOk result (λ places. (x : List ℕ) → get_by (λ key. bytes_eq x key.now) places ≡ place_from 0 x (map (λ f. f.now.name) functions.now)) }
{
    let mut places = HashMap::new(alloc);
    for (i, f) in functions.iter().enumerate() {
        declare(&mut places, &f.name, i)?;
    }
    Ok(places)
}

fn layout_places<'a>(
    alloc: Global,
    layouts: &[(&'a Name, &'a LayoutText)],
) -> Result<NameIndices<'a>, NoMemory>
    ensures { IfOk result (λ places. (x : List ℕ) → get_by (λ key. bytes_eq x key.now) places ≡ place_from 0 x (map (λ l. l.0.now) layouts.now)) }
{
    let mut places = HashMap::new(alloc);
    for (i, l) in layouts.iter().enumerate() {
        declare(&mut places, l.0, i)?;
    }
    Ok(places)
}

fn exception_places<'a>(alloc: Global, exceptions: &[&'a Name]) -> Result<NameIndices<'a>, NoMemory>
    ensures { IfOk result (λ places. (x : List ℕ) → get_by (λ key. bytes_eq x key.now) places ≡ place_from 0 x (map (λ x. x.now) exceptions.now)) }
{
    let mut places = HashMap::new(alloc);
    for (i, x) in exceptions.iter().enumerate() {
        declare(&mut places, *x, i)?;
    }
    Ok(places)
}

// The layout that a layout is another name of.
fn alias(l: &LayoutText) -> Option<&Name>
    ensures { MatchOption result (is_alias (layout_tree l.now) ≡ false) (λ x. layout_tree l.now ≡ NamedLayout x.now) }
{
    match l {
        LayoutText::Named(x) => Some(x),
        LayoutText::Gap(_) => None,
        LayoutText::Parts(_) => None,
        LayoutText::Joined(_) => None,
    }
}

impl<'a> Table<'a> {
    ghost use Rattle.std.specs.Prelude.{◌≡◌, ◌<◌, ◌≤◌, ℕ, List, false, min, [], map, take, length, get_or, IfOk, IfSome, MatchOption, None, Some};
    ghost use Rattle.nv_ast.specs.LayoutView.{layout_tree};
    ghost use Rattle.nv_ast.specs.Outline.{outline, size as bit_size, PartsOutline, no_named_outlines};
    ghost use Rattle.nv_ast.specs.ProgramView.{program_of, fun_tree};
    ghost use Rattle.nv_ast.specs.Tree.{NamedLayout};
    ghost use Rattle.nv_meaning_values.specs.Declarations.{declared, function_in, group_in};
    ghost use Rattle.nv_meaning_values.specs.Running.{exception_number};
    ghost use Rattle.nv_meaning_values.specs.inner.Tables.{is_alias, laid, layout_pairs};
    ghost use Rattle.nv_meaning_values.specs.inner.TableView.{declared_in};

    /// The table of a program.
    pub fn of(alloc: Global, program: &'a Program) -> Result<Table<'a>, NoMemory>
        ensures { IfOk result (λ t. declared_in t ≡ declared (program_of program.now)) }
    {
        let functions = functions(alloc, &program.decls)?;
        let layouts = layouts(alloc, &program.decls)?;
        let exceptions = exceptions(alloc, &program.decls)?;
        Table::placed(alloc, functions, layouts, exceptions)
    }

    // The table of these functions, layouts and exceptions.
    fn placed(
        alloc: Global,
        functions: Vec<&'a Fun>,
        layouts: Vec<(&'a Name, &'a LayoutText)>,
        exceptions: Vec<&'a Name>,
    ) -> Result<Table<'a>, NoMemory>
        requires { length exceptions.items ≤ 65535 }
        ensures { IfOk result (λ t. declared_in t ≡ record { layouts = laid [] (layout_pairs layouts.entry.items); exceptions = map (λ x. x.now) exceptions.entry.items; functions = map (λ f. fun_tree f.now) functions.entry.items }) }
    {
        let function_places = function_places(alloc, &functions)?;
        let layout_places = layout_places(alloc, &layouts)?;
        let exception_places = exception_places(alloc, &exceptions)?;
        let sizes = sizes(alloc, &layouts, &layout_places)?;
        Ok(Table {
            functions,
            layouts,
            exceptions,
            function_places,
            layout_places,
            exception_places,
            sizes,
        })
    }

    /// The place of the first function of a name, and the function.
    pub fn found(&self, x: &Name) -> Option<(usize, &'a Fun)>
        ensures function { MatchOption result (function_in (declared_in self.now).functions x.now ≡ None) (λ f. function_in (declared_in self.now).functions x.now ≡ Some (fun_tree f.1.now)) }
        ensures name { IfSome result (λ f. f.1.now.name ≡ x.now) }
        ensures place { IfSome result (λ f. (groups : List ℕ) → group_in (declared_in self.now).functions groups x.now ≡ get_or groups f.0 0) }
    {
        let place = *self.function_places.get(&x)?;
        Some((place, self.functions[place]))
    }

    /// The first function of a name.
    pub fn function(&self, x: &Name) -> Option<&'a Fun>
        ensures { MatchOption result (function_in (declared_in self.now).functions x.now ≡ None) (λ f. function_in (declared_in self.now).functions x.now ≡ Some (fun_tree f.now)) }
    {
        let place = *self.function_places.get(&x)?;
        Some(self.functions[place])
    }

    /// The number of an exception: they are numbered from 1, and 0 is none.
    pub fn exception(&self, x: &Name) -> u16
        ensures { result ≡ exception_number (declared_in self.now).exceptions x.now }
    {
        match self.exception_places.get(&x) {
            Some(place) => exception_at(Some(*place)),
            None => exception_at(None),
        }
    }

    /// How many bits the layout of a name has: 0 where there is none, and the greatest number where
    /// they are more.
    pub fn size_of(&self, x: &Name) -> u64
        ensures { result ≡ min (bit_size (outline (declared_in self.now).layouts (NamedLayout x.now))) u64.MAX }
    {
        name_size(&self.layout_places, &self.sizes, x)
    }

    /// The first layout of a name among the first `limit`, and how many stand before it. Where it is
    /// a name itself, the one that is named.
    pub fn layout(&self, x: &Name, limit: usize) -> Option<(&'a LayoutText, usize)>
        ensures outline { MatchOption result (outline (take limit (declared_in self.now).layouts) (NamedLayout x.now) ≡ PartsOutline no_named_outlines) (λ found. outline (take limit (declared_in self.now).layouts) (NamedLayout x.now) ≡ outline (take found.1 (declared_in self.now).layouts) (layout_tree found.0.now)) }
        ensures unnamed { IfSome result (λ found. is_alias (layout_tree found.0.now) ≡ false) }
        ensures stands { IfSome result (λ found. option_map (λ l. l.1) (slice_get self.now.layouts.items found.1) ≡ Some found.0) }
        ensures within { IfSome result (λ found. found.1 < limit) }
    {
        let mut place = *self.layout_places.get(&x)?;
        let mut before = limit;
        while place < before {
            let text = self.layouts[place].1;
            match alias(text) {
                Some(next) => {
                    before = place;
                    place = *self.layout_places.get(&next)?;
                }
                None => return Some((text, place)),
            }
        }
        None
    }
}
