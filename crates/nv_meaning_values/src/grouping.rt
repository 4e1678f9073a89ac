// The groups of functions.

ghost use Rattle.std.specs.Prelude.{◌≡◌, ◌++◌, ◌∷◌, List, map, replicate, IfOk, OnOk};
ghost use Rattle.nv_ast.specs.ProgramView.{decl_tree};
ghost use Rattle.nv_ast.specs.Tree.{DeclTree};
ghost use Rattle.nv_meaning_values.specs.Declarations.{groups_from};

use nv_ast::Decl;
use nv_base::NoMemory;
use std::alloc::Global;

/// The number of the group of each function.
pub fn groups(alloc: Global, decls: &[Decl]) -> Result<Vec<u32>, NoMemory>
    ensures { IfOk result (λ ns. ns.items ≡ groups_from 0 (map decl_tree decls.now)) }
{
    let mut groups = Vec::new(alloc);
    let mut next = 0;
    for decl in decls {
        next = add_group(decl, next, &mut groups)?;
    }
    Ok(groups)
}

// Adds the number of a group for each of its functions, if the declaration is one, and answers the
// number of the next group.
fn add_group(decl: &Decl, n: u32, groups: &mut Vec<u32>) -> Result<u32, NoMemory>
    ensures { IfOk result (λ m. (ds : List DeclTree) → groups.new.items ++ groups_from m ds ≡ groups.old.items ++ groups_from n (decl_tree decl.now ∷ ds)) }
{
    match decl {
        Decl::Group(fs) => {
            add_numbers(fs.len(), n, groups)?;
            if n == u32::MAX {
                return Err(NoMemory);
            }
            Ok(n + 1)
        }
        Decl::Layout(_, _, _) => Ok(n),
        Decl::Exception(_, _, _) => Ok(n),
    }
}

fn add_numbers(count: usize, n: u32, groups: &mut Vec<u32>) -> Result<(), NoMemory>
    ensures { OnOk result (groups.new.items ≡ groups.old.items ++ replicate count n) }
{
    for _ in 0..count {
        groups.push(n)?;
    }
    Ok(())
}
