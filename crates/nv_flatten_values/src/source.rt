// What a program declares, for its flattening.

ghost use Rattle.std.specs.Prelude.{◌≡◌, ◌++◌, List, map, length, replicate, IfOk, OnOk, ◌∷◌};
ghost use Rattle.nv_ast.specs.ProgramView.{decl_tree};
ghost use Rattle.nv_ast.specs.Tree.{DeclTree};
ghost use Rattle.nv_ast.specs.TypeView.{list_types};
ghost use Rattle.nv_flatten_values.specs.inner.Whole.{raised_in};

use crate::declarations_want::made;
use crate::forms::{of_type, of_types};
use crate::symbol::Symbol;
use nv_ast::{Decl, Fun, Name, Program, TyText};
use nv_base::NoMemory;
use nv_meaning_values::{Table, groups};
use std::alloc::Global;

/// The declarations of a program by name, the number of the group of each function, and the types of
/// each exception's values.
#[derive(Drop)]
pub struct Source<'a> {
    pub table: Table<'a>,
    pub groups: Vec<u32>,
    pub raised: Vec<&'a Vec<TyText>>,
    ghost grouped: { length groups.items ≡ length table.functions.items },
}

// The types of the values of each exception.
fn raised<'a>(alloc: Global, decls: &'a [Decl]) -> Result<Vec<&'a Vec<TyText>>, NoMemory>
    ensures { IfOk result (λ ts. map (λ t. list_types t.now.items) ts.items ≡ raised_in (map decl_tree decls.now)) }
{
    let mut raised = Vec::new(alloc);
    for decl in decls {
        made!(add_raised(decl, &mut raised), raised);
    }
    Ok(raised)
}

// Adds the types of an exception's values, if the declaration is one.
fn add_raised<'a>(decl: &'a Decl, raised: &mut Vec<&'a Vec<TyText>>) -> Result<(), NoMemory>
    ensures { OnOk result ((ds : List DeclTree) → map (λ t. list_types t.now.items) raised.new.items ++ raised_in ds ≡ map (λ t. list_types t.now.items) raised.old.items ++ raised_in (decl_tree decl.now ∷ ds)) }
{
    match decl {
        Decl::Exception(_, tys, _) => {
            raised.push(tys)?;
            Ok(())
        }
        Decl::Group(_) => Ok(()),
        Decl::Layout(_, _, _) => Ok(()),
    }
}

impl<'a> Source<'a> {
    ghost use Rattle.std.specs.Prelude.{◌≡◌, ◌≤◌, ◌+◌, ◌++◌, None, Some, option_map, IfOk, OnOk, MatchOption};
    ghost use Rattle.nv_ast.specs.ProgramView.{program_of, fun_tree};
    ghost use Rattle.nv_ast.specs.Types.{total_words, type_of, words};
    ghost use Rattle.nv_ast.specs.TypeView.{type_tree};
    ghost use Rattle.nv_meaning.specs.Meaning.{function_in};
    ghost use Rattle.nv_flatten_values.specs.inner.Symbols.{all_fresh, numbers_from, form};
    ghost use Rattle.nv_flatten_values.specs.inner.View.{view, list_symbols};
    ghost use Rattle.nv_flatten_values.specs.inner.Whole.{group_of, raised_or_none, result_of, whole_of};
    ghost use Rattle.nv_flatten_values.specs.inner.WholeView.{whole_in};

    /// The declarations of a program.
    pub fn of(alloc: Global, program: &'a Program) -> Result<Source<'a>, NoMemory>
        ensures { IfOk result (λ t. whole_in t ≡ whole_of (program_of program.now)) }
    {
        let table = Table::of(alloc, program)?;
        let groups = made!(groups(alloc, &program.decls), table);
        let raised = made!(raised(alloc, &program.decls), table, groups);
        Ok(Source {
            table,
            groups,
            raised,
        })
    }

    /// The function of a name, and the number of its group.
    pub fn function(&self, x: &Name) -> Option<(&'a Fun, u32)>
        ensures { MatchOption result (function_in (whole_in self.now).declared.functions x.now ≡ None) (λ f. (function_in (whole_in self.now).declared.functions x.now ≡ Some (fun_tree f.0.now)) × (group_of (whole_in self.now) x.now ≡ Some f.1)) }
    {
        let place = *self.table.function_places.get(&x)?;
        Some((self.table.functions[place], self.groups[place]))
    }

    /// Symbolic values of an exception's types, of new variables, which are added to a list; none where
    /// no exception has the number.
    pub fn raised_values(
        &self,
        alloc: Global,
        number: u16,
        next: &mut u32,
        made: &mut Vec<u32>,
    ) -> Result<Vec<Symbol<'a>>, NoMemory>
        ensures values { IfOk result (λ ss. list_symbols ss.items ≡ all_fresh next.old (raised_or_none (whole_in self.now) number)) }
        ensures next { OnOk result (next.new ≡ next.old + total_words (raised_or_none (whole_in self.now) number)) }
        ensures made { OnOk result (made.new.items ≡ made.old.items ++ numbers_from next.old (total_words (raised_or_none (whole_in self.now) number))) }
        ensures later { next.old ≤ next.new }
    {
        let number = number as usize;
        if number == 0 || number > self.raised.len() {
            return Ok(Vec::new(alloc));
        }
        of_types(alloc, &self.table, self.raised[number - 1], next, made)
    }

    /// The form of what a function gives, if there is such a function.
    pub fn result_form(&self, alloc: Global, f: &Name) -> Result<Option<Symbol<'a>>, NoMemory>
        ensures { IfOk result (λ o. option_map (λ s. form (view s)) o ≡ result_of (whole_in self.now) f.now) }
    {
        match self.table.function(f) {
            Some(g) => {
                let mut next = 0;
                let mut made = Vec::new(alloc);
                let symbol = of_type(alloc, &self.table, &g.result, &mut next, &mut made)?;
                Ok(Some(symbol))
            }
            None => Ok(None),
        }
    }

    /// How many words the values of a type have.
    pub fn words_of(&self, alloc: Global, ty: &'a TyText) -> Result<u32, NoMemory>
        ensures { IfOk result (λ n. n ≡ words (type_of (whole_in self.now).declared.layouts (type_tree ty.now))) }
    {
        let mut next = 0;
        let mut made = Vec::new(alloc);
        of_type(alloc, &self.table, ty, &mut next, &mut made)?;
        Ok(next)
    }
}
