//! Patterns: whether they fit a type, and the variables that they bind.

ghost use Rattle.std.specs.Prelude.{◌≡◌, ◌==◌, OnOk};
ghost use Rattle.nv_ast.specs.PatternView.{pattern_tree, list_patterns};
ghost use Rattle.nv_ast.specs.Types.{Ty, Tys};
ghost use Rattle.nv_ast.specs.Scope.{names_in_all, fits as fits_type, fits_all as fit_types, bind as bound_at, bind_all as all_bound_at, Vars};
ghost use Rattle.nv_ast.specs.Faults.{at_span, variable_twice};
ghost use Rattle.nv_types_table.specs.inner.Faulty.{Judges};
ghost use Rattle.nv_types_table.specs.inner.Store.{IsType, IsParts, count_tys};

use crate::functions::Checker;
use nv_ast::{Name, Pat, Span};
use nv_base::NoMemory;
use nv_types_table::error::{TypeError, fault_where};
use nv_types_table::names::{add_all_names, add_names, without_twice};
use nv_types_table::table::Table;

// Whether a pattern fits a type.
#[cycle(fits)]
#[tactic(auto, using(nv_types_table::proofs::PatternNames::tuple_pattern))]
fn fits(table: &Table, p: &Pat, t: usize) -> bool
    ensures { (u : Ty) → IsType table.now t u → result ≡ fits_type (pattern_tree p.now) u }
{
    match p {
        Pat::Name(_) | Pat::Any => true,
        Pat::Tuple(ps) => match table.tuple_parts(t) {
            Some(parts) => fits_all(table, ps, parts),
            None => false,
        },
    }
}

// Whether patterns fit a list of types.
#[cycle(fits)]
fn fits_all(table: &Table, ps: &[Pat], types: usize) -> bool
    ensures { (us : Tys) → IsParts table.now types us → result ≡ fit_types (list_patterns ps.now) us }
{
    let mut list = types;
    for p in ps {
        let Some((t, rest)) = table.first_part(list) else {
            return false;
        };
        if !fits(table, p, t) {
            return false;
        }
        list = rest;
    }
    table.first_part(list).is_none()
}

/// Whether a list has so many types.
pub fn has_length(table: &Table, types: usize, length: usize) -> bool
    ensures { (us : Tys) → IsParts table.now types us → result ≡ (count_tys us == length) }
{
    let mut list = types;
    for i in 0..length {
        let Some((_, rest)) = table.first_part(list) else {
            return false;
        };
        list = rest;
    }
    table.first_part(list).is_none()
}

impl<'a> Checker<'a> {
    ghost use Rattle.nv_types_scopes.specs.inner.Standing.{Sees};
    ghost use Rattle.nv_types_scopes.specs.inner.Patterns.{Adds, BindsLet, BindsHandler};

    /// The pattern of a let at the type of its value.
    pub fn let_pattern(
        &mut self,
        span: Span,
        p: &'a Pat,
        value: Option<usize>,
    ) -> Result<(), TypeError>
        ensures { BindsLet self.old self.new span (pattern_tree p.now) value result }
    {
        {
            let mut names = Vec::new(self.alloc);
            add_names(p, &mut names)?;
            without_twice(self.alloc, span, &names)?;
        }
        if let Some(t) = value {
            fault_where(!fits(&self.table, p, t), 16, span)?;
            self.bind(p, t)?;
        }
        Ok(())
    }

    /// The patterns of a handler, whose exception is to be known and to have as many words that they fit.
    pub fn handler_patterns(
        &mut self,
        span: Span,
        exception: &'a Name,
        ps: &'a [Pat],
    ) -> Result<usize, TypeError>
        ensures { BindsHandler self.old self.new span exception.now (list_patterns ps.now) result }
    {
        self.without_repeated(span, ps)?;
        match self.exceptions.get(exception) {
            Some(types) => {
                fault_where(!has_length(&self.table, types, ps.len()), 13, span)?;
                fault_where(!fits_all(&self.table, ps, types), 16, span)?;
                self.bind_all(ps, types)?;
                Ok(types)
            }
            None => Err(TypeError::Fault(17, span)),
        }
    }

    // No name stands twice in some patterns.
    fn without_repeated(&self, span: Span, ps: &'a [Pat]) -> Result<(), TypeError>
        ensures { Judges (at_span span (variable_twice (names_in_all (list_patterns ps.now)))) result }
    {
        let mut names = Vec::new(self.alloc);
        add_all_names(ps, &mut names)?;
        without_twice(self.alloc, span, &names)
    }

    // Binds the variables of a pattern at a type.
    #[cycle(bind)]
    fn bind(&mut self, p: &'a Pat, t: usize) -> Result<(), NoMemory>
        ensures sees { (u : Ty) (vars : Vars) → IsType self.old.table t u → Sees self.old vars → OnOk result (Sees self.new (bound_at (pattern_tree p.now) u vars)) }
        ensures adds { OnOk result (Adds self.old self.new) }
    {
        match p {
            Pat::Name(x) => self.scope.bind(x, t),
            Pat::Any => Ok(()),
            Pat::Tuple(ps) => match self.table.tuple_parts(t) {
                Some(parts) => self.bind_all(ps, parts),
                None => Ok(()),
            },
        }
    }

    // Binds the variables of patterns at a list of types.
    #[cycle(bind)]
    fn bind_all(&mut self, ps: &'a [Pat], types: usize) -> Result<(), NoMemory>
        ensures sees { (us : Tys) (vars : Vars) → IsParts self.old.table types us → Sees self.old vars → OnOk result (Sees self.new (all_bound_at (list_patterns ps.now) us vars)) }
        ensures adds { OnOk result (Adds self.old self.new) }
    {
        let mut list = types;
        for p in ps {
            let Some((t, rest)) = self.table.first_part(list) else {
                return Ok(());
            };
            self.bind(p, t)?;
            list = rest;
        }
        Ok(())
    }
}
