//! The exceptions of a source, as the object of its code names them.
ghost use Rattle.std.specs.Prelude.{◌≡◌, ◌≤◌, ◌<◌, ◌^◌, ◌∷◌, ◌++◌, List, length, map, IfOk};
ghost use Rattle.nv_ast.specs.ProgramView.{decl_tree, program_of};
ghost use Rattle.nv_ast.specs.Tree.{DeclTree};
ghost use Rattle.nv_lines.specs.LineColumn.{line_at};
ghost use Rattle.nv_text.specs.Limits.{source_limit};
ghost use Rattle.nova_compile.specs.Naming.{exceptions_in, source_exceptions};

use nv_ast::{Decl, Name, Program};
use nv_base::NoMemory;
use nv_lines::line_after;
use std::alloc::Global;

/// A place of a text, and its line.
#[derive(Clone, Copy)]
struct Mark {
    place: usize,
    line: usize,
}

/// The line and the name of each exception of a program, in the order of their numbers.
pub fn exceptions_of(
    alloc: Global,
    text: &[u8],
    program: &Program,
) -> Result<Vec<(u32, Name)>, NoMemory>
    requires { length text.now ≤ source_limit }
    ensures exceptions { IfOk result (λ list. list.items ≡ source_exceptions text.now (program_of program.now)) }
    ensures few { IfOk result (λ list. length list.items < 2 ^ 16) }
{
    let list = declared(alloc, text, &program.decls)?;
    Ok(list)
}

// Those of declarations. They stand in order, so the text is read once.
fn declared(alloc: Global, text: &[u8], decls: &[Decl]) -> Result<Vec<(u32, Name)>, NoMemory>
    requires { length text.now ≤ source_limit }
    ensures { IfOk result (λ list. list.items ≡ exceptions_in text.now (map decl_tree decls.now)) }
{
    let mut list = Vec::new(alloc);
    let mut last = Mark { place: 0, line: 1 };
    for decl in decls {
        last = add_exception(alloc, text, decl, last, &mut list)?;
    }
    Ok(list)
}

// Adds the exception that a declaration declares, if it does, and answers the place of the last one.
fn add_exception(
    alloc: Global,
    text: &[u8],
    decl: &Decl,
    last: Mark,
    list: &mut Vec<(u32, Name)>,
) -> Result<Mark, NoMemory>
    requires short { length text.now ≤ source_limit }
    requires last { last.line ≡ line_at text.now last.place }
    ensures mark { IfOk result (λ m. m.line ≡ line_at text.now m.place) }
    ensures added { IfOk result (λ _. (ds : List DeclTree) → list.new.items ++ exceptions_in text.now ds ≡ list.old.items ++ exceptions_in text.now (decl_tree decl.now ∷ ds)) }
{
    match decl {
        Decl::Exception(name, _, span) => {
            let place = span.first as usize;
            let line = line_in(text, last, place);
            let copy = Name::new(alloc, name.bytes())?;
            list.push((line as u32, copy))?;
            Ok(Mark { place, line })
        }
        Decl::Layout(_, _, _) => Ok(last),
        Decl::Group(_) => Ok(last),
    }
}

// The line of a place of a source.
fn line_in(text: &[u8], last: Mark, place: usize) -> usize
    requires short { length text.now ≤ source_limit }
    requires last { last.line ≡ line_at text.now last.place }
    ensures line { result ≡ line_at text.now place }
    ensures low { result < 2 ^ 32 }
{
    line_after(text, last.place, last.line, place)
}
