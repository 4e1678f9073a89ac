//! The vector that a search begins with: that of a dive, made cheaper by exchanges; and the rounds before the tree.

ghost use Rattle.std.specs.Prelude.{◌≡◌, ◌↔◌, IfOk, IfSome, IsTrue, Some, false};
ghost use Rattle.zo_model.specs.Program.{IsValid};
ghost use Rattle.zo_solve_dive.specs.inner.Better.{IsBest, IsCheaper, IsWeaker};
ghost use Rattle.zo_solve_dive.specs.Vector.{IsVector, cost_at, start_cost};

use crate::Best;
use crate::dive::{Way, run_dive, vector};
use crate::exchange::Exchange;
use crate::fixing::fix_decided;
use crate::needless::drop_needless;
use std::alloc::{AllocError, Global};
use zo_cert_tree::Claim;
use zo_model::{Assignment, ZeroOne, feasible};
use zo_solve_relaxation::long::Length;
use zo_solve_relaxation::{Log, ONE, Rounds, quotient};

/// A bound that no multipliers reach.
const FAR: i128 = 1 << 100;
/// The first run goes by moves of so much, the dive and the tree by moves of so much, the second run by all.
const FIRST_TOLERANCE: i64 = ONE >> 18;

const TOLERANCE: i64 = ONE >> 12;
/// The first run, the second one, and that where no vector is known.
const FIRST: Length = Length {
    rounds: 400,
    most: 2_000,
};

const SECOND: Length = Length {
    rounds: 4_000,
    most: 0,
};

const CLASH: Length = Length {
    rounds: 2_000,
    most: 0,
};
/// The dives have nothing to beat. The second one has more rounds after each doubtful choice.
const WAY: Way = Way {
    next: 40,
    cutoff: i64::MAX,
    repairs: 0,
};

const SECOND_WAY: Way = Way {
    next: 150,
    cutoff: i64::MAX,
    repairs: 0,
};
/// The dives among cheaper vectors, at the most so many. Two fifths of the columns have to be fixed before them.
const FIXED_REPAIRS: u32 = 60;

const FIXED_DIVES: u32 = 8;
/// The dive below the best vector.
const BELOW_ROUNDS: u32 = 20;

const BELOW_REPAIRS: u32 = 20;
/// The work of the first run, of each dive, and of the second run, with the dive behind it.
const FIRST_WORK: u64 = 250_000_000;

const DIVE_WORK: u64 = 250_000_000;

const SECOND_WORK: u64 = 60_000_000;
/// The work of the exchanges before the tree, and in it; the last of them may take so much more.
const EXCHANGE_WORK: u64 = 20_000_000;

const LATER_WORK: u64 = 60_000_000;

const LAST_WORK: u64 = 40_000_000;

/// A claim's cost, in units of the costs' divisor.
fn cost_in_units(rounds: &Rounds, claim: &Claim) -> i64 {
    match claim {
        Claim::Least(t) => {
            let cost = i64::try_from(*t).unwrap_or(i64::MAX);
            quotient(cost, i64::from(rounds.divisor()))
        }
        Claim::Nothing => i64::MAX,
    }
}

/// The bound above which multipliers prove the claim.
pub fn needed(rounds: &Rounds, claim: &Claim) -> i128 {
    match claim {
        Claim::Least(t) => i128::from(*t)
            .wrapping_sub(1)
            .wrapping_mul(i128::from(ONE))
            .checked_div(i128::from(rounds.divisor()))
            .unwrap_or(FAR),
        Claim::Nothing if rounds.has_prices() => FAR,
        Claim::Nothing => 0,
    }
}

/// Takes the vector where it meets the rows and is better. Whether it was taken.
pub fn take(z: &ZeroOne, best: &mut Best, x: Assignment) -> bool
    requires valid { IsValid z.now }
    requires best { IsBest z.now best.old }
    ensures best { IsBest z.now best.new }
    ensures start { best.new.start ≡ best.old.start }
    ensures weaker { IsWeaker best.old.claim best.new.claim }
    ensures cheaper { IsTrue result ↔ (IsVector z.now x × IsCheaper best.old.claim (cost_at z.now x)) }
    ensures taken { IsTrue result → best.new.x ≡ Some x }
    ensures kept { result ≡ false → best.new ≡ best.old }
{
    if x.on.len() != z.costs.len() {
        return false;
    }
    if !feasible(z, &x) {
        return false;
    }
    best.replace(z, x)
}

/// A vector by a dive from no fixed column.
fn dived(
    alloc: Global,
    z: &ZeroOne,
    rounds: &mut Rounds,
    way: Way,
) -> Result<Option<Assignment>, AllocError> {
    rounds.limit_to(DIVE_WORK);
    rounds.enqueue_all();
    let is_found = run_dive(z, rounds, way);
    let mut on = vector(alloc, z, rounds)?;
    drop_needless(alloc, z, rounds, &mut on)?;
    rounds.undo(0);
    rounds.give_back();
    if is_found {
        return Ok(Some(Assignment { on }));
    }
    Ok(None)
}

/// What dives among the cheaper vectors told.
#[derive(Drop)]
struct Below {
    /// Whether there may be a cheaper vector.
    may_be: bool,
    /// What the best one costs, in units of the divisor.
    cost: i64,
    x: Option<Assignment>,
}

/// A vector that costs less than this, by a dive. Columns that have one place in all such vectors are fixed.
fn dive_fixed(
    alloc: Global,
    z: &ZeroOne,
    rounds: &mut Rounds,
    cost: i64,
) -> Result<Below, AllocError> {
    let need = i128::from(cost)
        .wrapping_sub(1)
        .wrapping_mul(i128::from(ONE));
    let way = Way {
        next: WAY.next,
        cutoff: cost,
        repairs: FIXED_REPAIRS,
    };
    rounds.limit_to(DIVE_WORK);
    let may_be = fix_decided(rounds, z.costs.len(), need);
    let is_many = rounds.fixed_count() >= z.costs.len() / 5 * 2;
    let is_found = may_be && is_many && run_dive(z, rounds, way);
    let cost = rounds.spent();
    let mut on = vector(alloc, z, rounds)?;
    drop_needless(alloc, z, rounds, &mut on)?;
    rounds.undo(0);
    rounds.give_back();
    let x = if is_found {
        Some(Assignment { on })
    } else {
        None
    };
    Ok(Below { may_be, cost, x })
}

/// A vector by dives among those that are cheaper than the best one, as long as they find one.
fn dived_fixed(
    alloc: Global,
    z: &ZeroOne,
    best: &Best,
    rounds: &mut Rounds,
) -> Result<Below, AllocError> {
    let mut last = Below {
        may_be: true,
        cost: cost_in_units(rounds, &best.claim),
        x: None,
    };
    if best.x.is_none() {
        return Ok(last);
    }
    for _ in 0..FIXED_DIVES {
        let next = dive_fixed(alloc, z, rounds, last.cost)?;
        if next.x.is_none() {
            last.may_be = next.may_be;
            return Ok(last);
        }
        last = next;
    }
    Ok(last)
}

/// A vector by a second dive, where the best one may not be the cheapest.
fn dived_again(
    alloc: Global,
    z: &ZeroOne,
    best: &Best,
    rounds: &mut Rounds,
    lower: i64,
) -> Result<Option<Assignment>, AllocError> {
    if best.x.is_none() || cost_in_units(rounds, &best.claim) <= lower {
        return Ok(None);
    }
    dived(alloc, z, rounds, SECOND_WAY)
}

/// The best vector made cheaper by exchanges, where there is one.
fn exchanged(
    alloc: Global,
    z: &ZeroOne,
    best: &Best,
    rounds: &mut Rounds,
    lower: i64,
    is_later: bool,
) -> Result<Option<Assignment>, AllocError> {
    let Some(x) = &best.x else {
        return Ok(None);
    };
    let cost = cost_in_units(rounds, &best.claim);
    if cost <= lower {
        return Ok(None);
    }
    let work = if is_later { LATER_WORK } else { EXCHANGE_WORK };
    rounds.limit_to(work.saturating_add(LAST_WORK));
    let mut exchange = Exchange {
        on: Vec::from_slice(alloc, &x.on)?,
        cost,
        lower,
        end: rounds.work().saturating_add(work),
    };
    exchange_all(alloc, z, rounds, &mut exchange, is_later)?;
    let Exchange { on, .. } = exchange;
    Ok(Some(Assignment { on }))
}

/// Makes the vector cheaper by exchanges, and drops what is needless.
fn exchange_all(
    alloc: Global,
    z: &ZeroOne,
    rounds: &mut Rounds,
    exchange: &mut Exchange,
    is_later: bool,
) -> Result<(), AllocError> {
    drop_needless(alloc, z, rounds, &mut exchange.on)?;
    let (from, still) = if is_later { (2, 10) } else { (0, 2) };
    exchange.run(alloc, z, rounds, from, still)?;
    drop_needless(alloc, z, rounds, &mut exchange.on)?;
    rounds.give_back();
    Ok(())
}

/// Takes the vector, where there is one that meets the rows and is better. Whether it was taken.
fn take_some(z: &ZeroOne, best: &mut Best, x: Option<Assignment>) -> bool
    requires valid { IsValid z.now }
    requires best { IsBest z.now best.old }
    ensures best { IsBest z.now best.new }
    ensures start { best.new.start ≡ best.old.start }
    ensures weaker { IsWeaker best.old.claim best.new.claim }
{
    match x {
        Some(x) => take(z, best, x),
        None => false,
    }
}

/// The first run of rounds; what it shows that every vector costs. Half of the work that is allowed is left for dives.
fn run_first(best: &Best, rounds: &mut Rounds) -> i64 {
    rounds.set_tolerance(FIRST_TOLERANCE);
    rounds.limit_to(FIRST_WORK.min(rounds.left() / 2));
    let need = needed(rounds, &best.claim);
    rounds.run_long(need, FIRST);
    rounds.keep();
    rounds.set_tolerance(TOLERANCE);
    rounds.lower()
}

/// The second run, with the weight that the first one ended with; where no vector is known, without the costs.
fn run_second(best: &Best, rounds: &mut Rounds) {
    rounds.set_tolerance(1);
    rounds.limit_to(SECOND_WORK);
    if best.x.is_none() {
        rounds.restart(false);
        rounds.run_long(0, CLASH);
    } else {
        let need = needed(rounds, &best.claim);
        if rounds.bound() <= need {
            rounds.run_long(need, SECOND);
        }
    }
    rounds.note_weight();
    rounds.reset_weight();
    rounds.set_tolerance(TOLERANCE);
}

/// Whether the rounds show that the best vector is best.
fn is_shown(rounds: &Rounds, best: &Best) -> bool {
    rounds.bound() > needed(rounds, &best.claim)
}

/// Vectors by dives and exchanges, after the first run.
fn improve_first(
    alloc: Global,
    z: &ZeroOne,
    best: &mut Best,
    rounds: &mut Rounds,
    lower: i64,
) -> Result<(), AllocError>
    requires valid { IsValid z.now }
    requires best { IsBest z.now best.old }
    ensures best { IfOk result (λ _. IsBest z.now best.new) }
    ensures start { IfOk result (λ _. best.new.start ≡ best.old.start) }
{
    let x = dived(alloc, z, rounds, WAY)?;
    take_some(z, best, x);
    let Below { may_be, x, .. } = dived_fixed(alloc, z, best, rounds)?;
    take_some(z, best, x);
    if may_be {
        let x = dived_again(alloc, z, best, rounds, lower)?;
        take_some(z, best, x);
        let x = exchanged(alloc, z, best, rounds, lower, false)?;
        take_some(z, best, x);
    }
    Ok(())
}

/// The first rounds and vectors.
fn improve_by_runs(
    alloc: Global,
    z: &ZeroOne,
    best: &mut Best,
    rounds: &mut Rounds,
) -> Result<(), AllocError>
    requires valid { IsValid z.now }
    requires best { IsBest z.now best.old }
    ensures best { IfOk result (λ _. IsBest z.now best.new) }
    ensures start { IfOk result (λ _. best.new.start ≡ best.old.start) }
{
    let lower = run_first(best, rounds);
    let weight = rounds.reset_weight();
    if !is_shown(rounds, best) {
        improve_first(alloc, z, best, rounds, lower)?;
    }
    rounds.set_weight(weight);
    run_second(best, rounds);
    rounds.limit_to(SECOND_WORK);
    Ok(())
}

/// The rounds before the tree, and the vectors by them.
fn improve(
    alloc: Global,
    z: &ZeroOne,
    best: &mut Best,
    rounds: &mut Rounds,
) -> Result<(), AllocError>
    requires valid { IsValid z.now }
    requires best { IsBest z.now best.old }
    ensures best { IfOk result (λ _. IsBest z.now best.new) }
    ensures start { IfOk result (λ _. best.new.start ≡ best.old.start) }
{
    improve_by_runs(alloc, z, best, rounds)?;
    dive_below(alloc, z, best, rounds)
}

/// A vector by a dive from where the rounds stand, cheaper than the best one. The rounds come back to where they stood.
fn dived_below(
    alloc: Global,
    z: &ZeroOne,
    best: &Best,
    rounds: &mut Rounds,
) -> Result<Option<Assignment>, AllocError> {
    if best.x.is_none() || !rounds.has_prices() || is_shown(rounds, best) {
        return Ok(None);
    }
    let way = Way {
        next: BELOW_ROUNDS,
        cutoff: cost_in_units(rounds, &best.claim),
        repairs: BELOW_REPAIRS,
    };
    rounds.keep_best();
    let log = rounds.replace_log(Log::new(alloc));
    rounds.clear_queue();
    let is_found = run_dive(z, rounds, way);
    let on = vector(alloc, z, rounds);
    rounds.undo(0);
    rounds.give_best();
    rounds.replace_log(log);
    let x = Assignment { on: on? };
    Ok(if is_found { Some(x) } else { None })
}

/// Makes the best vector cheaper by a dive from where the rounds stand, if that finds one.
pub fn dive_below(
    alloc: Global,
    z: &ZeroOne,
    best: &mut Best,
    rounds: &mut Rounds,
) -> Result<(), AllocError>
    requires valid { IsValid z.now }
    requires best { IsBest z.now best.old }
    ensures best { IfOk result (λ _. IsBest z.now best.new) }
    ensures start { IfOk result (λ _. best.new.start ≡ best.old.start) }
    ensures weaker { IfOk result (λ _. IsWeaker best.old.claim best.new.claim) }
{
    let x = dived_below(alloc, z, best, rounds)?;
    take_some(z, best, x);
    Ok(())
}

/// The best of the start and of the vectors that a dive and exchanges after it find.
pub fn begin(
    alloc: Global,
    z: &ZeroOne,
    start: Option<Assignment>,
    rounds: &mut Rounds,
) -> Result<Best, AllocError>
    requires valid { IsValid z.now }
    requires start { IfSome start (IsVector z.now) }
    ensures best { IfOk result (IsBest z.now) }
    ensures start { IfOk result (λ best. best.start ≡ start_cost z.now start) }
{
    let mut best = Best::new(z, start);
    improve(alloc, z, &mut best, rounds)?;
    Ok(best)
}

/// Exchanges that begin with what was kept. The rounds come back to where they stood.
fn exchanged_again(
    alloc: Global,
    z: &ZeroOne,
    best: &Best,
    rounds: &mut Rounds,
    lower: i64,
) -> Result<Option<Assignment>, AllocError> {
    rounds.keep_best();
    let log = rounds.replace_log(Log::new(alloc));
    let left = rounds.left();
    rounds.give_back();
    let x = exchanged(alloc, z, best, rounds, lower, true);
    rounds.limit_to(left);
    rounds.give_best();
    rounds.replace_log(log);
    x
}

/// Makes the best vector cheaper, if more exchanges can. No column is fixed before.
pub fn improve_again(
    alloc: Global,
    z: &ZeroOne,
    best: &mut Best,
    rounds: &mut Rounds,
    lower: i64,
) -> Result<(), AllocError>
    requires valid { IsValid z.now }
    requires best { IsBest z.now best.old }
    ensures best { IfOk result (λ _. IsBest z.now best.new) }
    ensures start { IfOk result (λ _. best.new.start ≡ best.old.start) }
    ensures weaker { IfOk result (λ _. IsWeaker best.old.claim best.new.claim) }
{
    let x = exchanged_again(alloc, z, best, rounds, lower)?;
    take_some(z, best, x);
    Ok(())
}
