//! Declarations without the bodies of functions.

ghost use Rattle.std.specs.Prelude.{◌≡◌, [], OnOk, IfOk, map, bytes_eq, if◌then◌else◌};
ghost use Rattle.nv_ast.specs.ProgramView.{fun_tree};
ghost use Rattle.nv_ast.specs.LayoutView.{layout_tree};
ghost use Rattle.nv_ast.specs.TypeView.{list_types};
ghost use Rattle.nv_ast.specs.Tree.{LayoutDecl, ExceptionDecl};
ghost use Rattle.nv_ast.specs.Types.{NamedTys};
ghost use Rattle.nv_ast.specs.Scope.{Signature, plain_tys, param_vars};
ghost use Rattle.nv_ast.specs.Faults.{at_span, main_name, name_faults, variable_twice, wide_main};
ghost use Rattle.nv_ast.specs.Tests.{names_of};
ghost use Rattle.nv_types_table.specs.inner.Named.{named, bound_types};
ghost use Rattle.nv_types_table.specs.inner.Store.{IsType, IsParts, field_names};
ghost use Rattle.nv_types_table.specs.inner.Faulty.{Judges};

use crate::functions::Checker;
use indexmap::IndexSet;
use nv_ast::{Fun, LayoutText, Name, Span, TyText};
use nv_base::NoMemory;
use nv_types_table::cost::Cost;
use nv_types_table::error::{TypeError, fault_where};
use nv_types_table::names::without_twice;

/// The name of a program's first function.
pub const MAIN: [u8; 4] = *b"main";

impl<'a> Checker<'a> {
    ghost use Rattle.nv_types_scopes.specs.inner.Standing.{Sees, KeepsDeclared};
    ghost use Rattle.nv_types_scopes.specs.inner.Declarations.{ChecksDecl, AddsCosts, is_wide};

    /// 2: a name that is declared before.
    pub fn layout_declaration(
        &mut self,
        span: Span,
        name: &'a Name,
        l: &'a LayoutText,
    ) -> Result<(), TypeError>
        ensures { ChecksDecl self.old self.new (LayoutDecl name.now (layout_tree l.now) span) result }
    {
        fault_where(self.layouts.get(name).is_some(), 2, span)?;
        let shape = self.whole_layout(span, l)?;
        self.layouts.add(name, shape)?;
        Ok(())
    }

    /// 2: a name that is declared before; 23: values of more than 8 words.
    pub fn exception_declaration(
        &mut self,
        span: Span,
        name: &'a Name,
        ts: &'a [TyText],
    ) -> Result<(), TypeError>
        ensures { ChecksDecl self.old self.new (ExceptionDecl name.now (list_types ts.now) span) result }
    {
        fault_where(self.exceptions.get(name).is_some(), 2, span)?;
        let types = self.type_texts(span, ts)?;
        fault_where(self.table.known(types).words > 8, 23, span)?;
        self.exceptions.add(name, types)?;
        Ok(())
    }

    /// 2: a name of an earlier function.
    pub fn group_names(&self, fs: &'a [Fun]) -> Result<(), TypeError>
        ensures { Judges (name_faults (names_of self.now.functions) (map fun_tree fs.now)) result }
    {
        self.add_group_names(&mut IndexSet::new(self.alloc), fs)
    }

    // The same, where the names of the group go to none.
    fn add_group_names(
        &self,
        names: &mut IndexSet<&'a Name>,
        fs: &'a [Fun],
    ) -> Result<(), TypeError>
        requires { names.old.keys ≡ [] }
        ensures { Judges (name_faults (names_of self.now.functions) (map fun_tree fs.now)) result }
    {
        for f in fs {
            let name = &f.name;
            fault_where(self.functions.get(name).is_some(), 2, f.span)?;
            fault_where(!names.insert(name)?, 2, f.span)?;
        }
        Ok(())
    }

    /// No two parameters have one name.
    pub fn without_twice_param(
        &self,
        span: Span,
        params: &[(&'a Name, usize)],
    ) -> Result<(), TypeError>
        ensures { Judges (at_span span (variable_twice (names_of (named params.now)))) result }
    {
        let mut names = Vec::new(self.alloc);
        for p in params {
            names.push(p.0)?;
        }
        without_twice(self.alloc, span, &names)
    }

    /// The types of some parameters.
    pub fn param_types(&self, params: &[(&'a Name, usize)]) -> Result<Vec<usize>, NoMemory>
        ensures { IfOk result (λ v. v.items ≡ bound_types (named params.now)) }
    {
        let mut types = Vec::new(self.alloc);
        for p in params {
            types.push(p.1)?;
        }
        Ok(types)
    }

    /// 23: a main that is too wide.
    pub fn fitting_main(&self, f: &'a Fun, params: usize, returned: usize) -> Result<(), TypeError>
        ensures { (g : Signature) → IsParts self.now.table params (plain_tys g.params) → IsType self.now.table returned g.result → Judges (at_span f.now.span (if bytes_eq f.now.name main_name then wide_main g else [])) result }
    {
        if f.name.bytes() != MAIN.as_slice() {
            return Ok(());
        }
        fault_where(self.is_wide_main(params, returned), 23, f.span)
    }

    // Whether main's parameters have more than 8 words or a bool, or its result has more than 8 words.
    fn is_wide_main(&self, params: usize, returned: usize) -> bool
        ensures { (g : Signature) → IsParts self.now.table params (plain_tys g.params) → IsType self.now.table returned g.result → result ≡ is_wide g }
    {
        let facts = self.table.known(params);
        let wide = self.table.known(returned).words > 8;
        facts.words > 8 || facts.has_bool || wide
    }

    /// Binds a function's parameters at a list of types.
    pub fn bind_params(&mut self, f: &'a Fun, types: usize) -> Result<(), NoMemory>
        ensures sees { (ts : NamedTys) → IsParts self.old.table types (plain_tys ts) → field_names ts ≡ names_of (f.now.params.items) → Sees self.old [] → OnOk result (Sees self.new (param_vars ts [])) }
        ensures keeps { OnOk result (KeepsDeclared self.old self.new) }
    {
        let mut list = types;
        for p in f.params.iter() {
            let Some((t, rest)) = self.table.first_part(list) else {
                return Ok(());
            };
            self.scope.bind(&p.0, t)?;
            list = rest;
        }
        Ok(())
    }

    /// The functions of a group are behind, each at the cost of all.
    pub fn add_costs(&mut self, fs: &'a [Fun], whole: Cost) -> Result<(), NoMemory>
        ensures { AddsCosts self.old self.new (map fun_tree fs.now) whole result }
    {
        for f in fs {
            self.costs.add(&f.name, whole)?;
        }
        Ok(())
    }
}
