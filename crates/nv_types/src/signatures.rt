//! The types in the texts of functions.

ghost use Rattle.nv_ast.specs.ProgramView.{fun_tree};
ghost use Rattle.nv_types_scopes.specs.inner.Declarations.{SignsFunction};

use nv_ast::Fun;
use nv_types_scopes::functions::{Checker, Function};
use nv_types_table::error::TypeError;

/// The types in a function's text; 9: two parameters of one name. That counts before a main of other words than it
/// may have.
pub fn signature<'a>(checker: &mut Checker<'a>, f: &'a Fun) -> Result<(), TypeError>
    ensures { SignsFunction checker.old checker.new (fun_tree f.now) result }
{
    let params = checker.named_texts(f.span, &f.params)?;
    let result = checker.type_text(f.span, &f.result)?;
    checker.without_twice_param(f.span, &params)?;
    let types = checker.param_types(&params)?;
    let list = checker.table.parts_of(&types)?;
    checker.fitting_main(f, list, result)?;
    let function = Function {
        params: list,
        result,
    };
    checker.functions.add(&f.name, function)?;
    Ok(())
}
