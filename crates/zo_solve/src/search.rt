//! The search, and its answers.

ghost use Rattle.std.specs.Prelude.{◌≡◌, ◌+◌, ◌-◌, ◌*◌, ◌≤◌, ◌^◌, [], IfOk, IfSome, length, All};
ghost use Rattle.zo_model.specs.Program.{IsValid, columns};
ghost use Rattle.zo_cert_tree.specs.Certificate.{IsShaped, IsTreeWith, branches};
ghost use Rattle.zo_cert_tree.specs.Node.{IsNode};
ghost use Rattle.zo_cert_tree.specs.inner.Leaf.{IsClear};
ghost use Rattle.zo_cert_tree.specs.inner.Path.{begun};
ghost use Rattle.zo_cert_tree.specs.Searched.{IsSearched};
ghost use Rattle.zo_solve_dive.specs.Pick.{Answers, CanPick};
ghost use Rattle.zo_solve_branch.specs.Nodes.{IsBelow, IsPicked};
ghost use Rattle.zo_solve_dive.specs.inner.Better.{IsBest};
ghost use Rattle.zo_solve.specs.inner.Search.{IsAnswerOf, IsFound};
ghost use Rattle.zo_solve.specs.Solved.{CostsAtMost, EachIn, HadNoStart, IsCutOff, IsDecided, IsProved, OfVector, claim_of, tree_of};
ghost use Rattle.zo_solve_dive.specs.Vector.{IsVector, cost_at, start_cost};

use std::alloc::{AllocError, Global};
use zo_cert_tree::path::Path;
use zo_cert_tree::{Cert, CertNode, Fixed, has_left};
use zo_model::{Assignment, NoMemory, ZeroOne};
use zo_solve_branch::Order;
use zo_solve_branch::node::step;
use zo_solve_dive::{Best, Pick, Sums};

/// What a search found, with its tree.
#[derive(Drop)]
pub enum Solved {
    /// A vector, and a proof that none is cheaper.
    Optimal(Assignment, Cert),
    /// A vector; the search was cut off.
    Feasible(Assignment, Cert),
    /// A proof that no vector meets the rows.
    Infeasible(Cert),
    /// No vector; the search was cut off.
    Spent(Cert),
}

/// The nodes of a tree of at most `budget` branches, depth first.
fn walk<F: Fn(&ZeroOne, &Fixed) -> u32>(
    alloc: Global,
    z: &ZeroOne,
    pick: &Pick<F>,
    budget: u32,
    best: &mut Best,
    sums: &mut Sums,
    order: &Order,
    weights: &mut [i128],
    path: &mut Path,
    nodes: &mut Vec<CertNode>,
) -> Result<(), AllocError>
    requires valid { IsValid z.now }
    requires can_pick { CanPick (F.pre pick.now.choose) (F.post pick.now.choose) }
    requires best { IsBest z.now best.old }
    requires program { sums.old.program ≡ z.now }
    requires places { length sums.old.fixed ≡ columns z.now }
    requires clear { IsClear (columns z.now) weights.old }
    requires path { path.old ≡ begun z.now.costs.items }
    requires none { nodes.old.items ≡ [] }
    ensures { IfOk result (λ _. IsFound z.now best.old.start (Answers (F.post pick.now.choose) z.now) budget best.new nodes.new.items) }
{
    let mut left = budget;
    'nodes: while !path.is_done() {
        left = step(
            alloc, z, pick, left, best, sums, order, weights, path, nodes,
        )?;
    }
    Ok(())
}

/// The nodes of a tree of at most `budget` branches, depth first; the best vector goes with it.
fn search<F: Fn(&ZeroOne, &Fixed) -> u32>(
    alloc: Global,
    z: &ZeroOne,
    pick: &Pick<F>,
    budget: u32,
    best: &mut Best,
    order: &Order,
) -> Result<Vec<CertNode>, NoMemory>
    requires valid { IsValid z.now }
    requires can_pick { CanPick (F.pre pick.now.choose) (F.post pick.now.choose) }
    requires best { IsBest z.now best.old }
    ensures { IfOk result (λ nodes. IsFound z.now best.old.start (Answers (F.post pick.now.choose) z.now) budget best.new nodes.items) }
{
    let mut weights = vec![in alloc; 0i128; z.costs.len()]?;
    let mut path = Path::new(alloc, z)?;
    let mut sums = Sums::new(alloc, z)?;
    let mut nodes = Vec::new(alloc);
    walk(
        alloc,
        z,
        pick,
        budget,
        best,
        &mut sums,
        order,
        &mut weights,
        &mut path,
        &mut nodes,
    )?;
    Ok(nodes)
}

/// The answer of a search that has ended.
fn answer(x: Option<Assignment>, nodes: Vec<CertNode>) -> Solved
    ensures { IsAnswerOf x nodes.items result }
{
    let is_open = has_left(&nodes);
    let tree = Cert { nodes };
    match x {
        Some(x) if is_open => Solved::Feasible(x, tree),
        Some(x) => Solved::Optimal(x, tree),
        None if is_open => Solved::Spent(tree),
        None => Solved::Infeasible(tree),
    }
}

/// Searches as `solve` does, by the rounds of this order. A pick that names what the order chooses shares them.
pub fn solve_by<F: Fn(&ZeroOne, &Fixed) -> u32>(
    alloc: Global,
    z: &ZeroOne,
    start: Option<Assignment>,
    budget: u32,
    pick: &Pick<F>,
    order: &Order,
) -> Result<Solved, NoMemory>
    requires valid { IsValid z.now }
    requires start { IfSome start (IsVector z.now) }
    requires budget { 1 ≤ budget }
    requires can_pick { CanPick (F.pre pick.now.choose) (F.post pick.now.choose) }

    // what the answer says
    ensures vector { IfOk result (OfVector (IsVector z.now)) }
    ensures proved { IfOk result (IsProved z.now) }
    ensures cut_off { IfOk result (IsCutOff budget) }
    ensures no_start { IfOk result (HadNoStart start) }
    ensures no_dearer { IfOk result (OfVector (λ x. CostsAtMost (cost_at z.now x) (start_cost z.now start))) }
    ensures decided { 2 ^ (columns z.now + 1) - 1 ≤ budget → IfOk result IsDecided }

    // the tree
    ensures shaped { IfOk result (λ s. IsTreeWith (IsShaped z.now) (tree_of s)) }
    ensures searched { IfOk result (λ s. IsTreeWith (IsSearched z.now (claim_of z.now s)) (tree_of s)) }
    ensures within_budget { IfOk result (λ s. branches (tree_of s).nodes.items ≤ budget) }
    ensures few_nodes { IfOk result (λ s. length (tree_of s).nodes.items ≤ 2 * budget + 1) }
    ensures within_limits { IfOk result (λ s. All IsNode (tree_of s).nodes.items) }
    ensures picked { IfOk result (EachIn z.now (IsPicked (Answers (F.post pick.now.choose) z.now))) }
    ensures below_start { IfOk result (EachIn z.now (IsBelow z.now (start_cost z.now start))) }
{
    let mut best = order.begin(alloc, z, start, budget)?;
    let nodes = search(alloc, z, pick, budget, &mut best, order)?;
    Ok(answer(best.x, nodes))
}

/// Searches for the cheapest vector that meets the rows, depth first with at most `budget` branches.
///
/// `start` is a vector to begin with; a rounding dive may find a cheaper one before the tree is begun, or a first one. The
/// branches are on the columns that `pick` names. Every answer has the tree that was searched: where it was ended, it proves the
/// answer; where it was cut off, it used the whole budget.
pub fn solve<F: Fn(&ZeroOne, &Fixed) -> u32>(
    alloc: Global,
    z: &ZeroOne,
    start: Option<Assignment>,
    budget: u32,
    pick: &Pick<F>,
) -> Result<Solved, NoMemory>
    requires valid { IsValid z.now }
    requires start { IfSome start (IsVector z.now) }
    requires budget { 1 ≤ budget }
    requires can_pick { CanPick (F.pre pick.now.choose) (F.post pick.now.choose) }

    // what the answer says
    ensures vector { IfOk result (OfVector (IsVector z.now)) }
    ensures proved { IfOk result (IsProved z.now) }
    ensures cut_off { IfOk result (IsCutOff budget) }
    ensures no_start { IfOk result (HadNoStart start) }
    ensures no_dearer { IfOk result (OfVector (λ x. CostsAtMost (cost_at z.now x) (start_cost z.now start))) }
    ensures decided { 2 ^ (columns z.now + 1) - 1 ≤ budget → IfOk result IsDecided }

    // the tree
    ensures shaped { IfOk result (λ s. IsTreeWith (IsShaped z.now) (tree_of s)) }
    ensures searched { IfOk result (λ s. IsTreeWith (IsSearched z.now (claim_of z.now s)) (tree_of s)) }
    ensures within_budget { IfOk result (λ s. branches (tree_of s).nodes.items ≤ budget) }
    ensures few_nodes { IfOk result (λ s. length (tree_of s).nodes.items ≤ 2 * budget + 1) }
    ensures within_limits { IfOk result (λ s. All IsNode (tree_of s).nodes.items) }
    ensures picked { IfOk result (EachIn z.now (IsPicked (Answers (F.post pick.now.choose) z.now))) }
    ensures below_start { IfOk result (EachIn z.now (IsBelow z.now (start_cost z.now start))) }
{
    let order = Order::new(alloc, z)?;
    solve_by(alloc, z, start, budget, pick, &order)
}
