//! What a search tree keeps beside the rounds: the branches above the node, and what was learnt of columns.

ghost use Rattle.std.specs.Prelude.{◌≡◌, IfOk};
ghost use Rattle.zo_model.specs.Program.{IsValid};
ghost use Rattle.zo_solve_dive.specs.inner.Better.{IsBest, IsWeaker};

use std::alloc::{AllocError, Global};
use zo_cert_tree::{CertNode, Claim};
use zo_model::ZeroOne;
use zo_solve_dive::{Best, dive_below, improve_again, needed};
use zo_solve_relaxation::long::Length;
use zo_solve_relaxation::{ONE, Rounds, put};

/// The rounds of the tree visit N columns, rows and terms; after that nodes are closed without multipliers.
const WORK: u64 = 1_000_000_000;
/// All leaves have so many multipliers, so that a report stays loadable.
const MULTIPLIERS: usize = 4_000_000;
/// So many rounds go at the root, and in a window.
const ROOT_ROUNDS: u32 = 400;

const WINDOW: u32 = 80;
/// A run for the bound at the root alone, and its work.
const ROOT_RUN: Length = Length {
    rounds: 4_000,
    most: 0,
};

const ROOT_WORK: u64 = 100_000_000;

/// How far the rounds go at a node.
#[derive(Clone, Copy, Drop)]
struct Effort {
    rounds: u32,
    /// The part of what is missing that a window has to gain.
    pace: i128,
    /// Smaller moves of columns are left out.
    tolerance: i64,
}

/// The first open nodes have their rounds go until they converge, the others only a little.
const FINE_NODES: u64 = 16;

const FINE: Effort = Effort {
    rounds: 2_000,
    pace: 1_000,
    tolerance: ONE >> 16,
};

const COARSE: Effort = Effort {
    rounds: 200,
    pace: 50,
    tolerance: ONE >> 12,
};
/// A bound that no multipliers reach.
const FAR: i128 = 1 << 100;
/// After so many branches the exchanges are taken up again.
const LATER: u64 = 16;
/// After so many, behind these exchanges, the rounds of a tree end that is lost.
const LOST_AFTER: u64 = LATER + 8;
/// After so much work, and every so many branches, the share of the tree that is closed has to give hope.
const HOPE_WORK: u64 = 100_000_000;

const HOPE_EVERY: u64 = 256;
/// So often, whatever the work, where the probes at the root leave doubt: where less is gained by each of so many branches
/// in a row, beside those that the budget allows side by side.
const DOUBT_EVERY: u64 = 32;

const DOUBT_LEVELS: u32 = 5;
/// The least gain that tells.
const DOUBT_GAIN: i64 = ONE / 4;
/// A dive goes from the first open nodes, and from each so many, in a part of the tree's work and of so much before it.
const FIRST_DIVES: u64 = 8;

const DIVE_EVERY: u64 = 8;

const DIVE_SHARE: u64 = 3;

const DIVE_START: u64 = 30_000_000;

/// A branch above the node, and how long the logs were before it.
#[derive(Clone, Copy, Drop)]
pub struct Arm {
    pub column: u32,
    pub value: bool,
    log: usize,
    scores: usize,
}

/// A column whose score changed, and what it was.
#[derive(Clone, Copy, Drop)]
pub struct Scored {
    column: u32,
    was: i64,
}

/// The column that a node of some depth branched on, with its score.
#[derive(Clone, Copy, Drop)]
pub struct Hint {
    pub column: u32,
    pub score: i64,
}

/// The state of a search.
#[derive(Drop)]
pub struct Tree {
    pub rounds: Rounds,
    arms: Vec<Arm>,
    // what a branch on each column gained when it was last probed, or -1
    pub scores: Vec<i64>,
    changes: Vec<Scored>,
    pub has_scores: bool,
    pub hints: Vec<Hint>,
    // a number at each column that was looked at
    pub seen: Vec<u64>,
    pub stamp: u64,
    has_begun: bool,
    // what the rounds before the tree show that every vector costs
    pub lower: i64,
    // the bound that closes a node
    need: i128,
    // how many nodes weren't closed, how many leaves have been, with how many multipliers
    pub open: u64,
    pub leaves: u64,
    pub multipliers: usize,
    pub budget: u64,
    pub is_off: bool,
    is_doubtful: bool,
    // whether probes say that the budget can't close the tree, whether they show so much that this is sure, and whether they are fine
    pub is_hopeless: bool,
    is_lost: bool,
    pub is_fine: bool,
    // whether the last node is open, and the work of the dives from such nodes
    is_open: bool,
    dive_work: u64,
}

/// What is learnt of columns.
#[derive(Drop)]
struct Learnt {
    scores: Vec<i64>,
    seen: Vec<u64>,
}

/// Nothing yet.
fn learnt_of(alloc: Global, z: &ZeroOne) -> Result<Learnt, AllocError> {
    let scores = vec![in alloc; -1; z.costs.len()]?;
    let seen = vec![in alloc; 0; z.costs.len()]?;
    Ok(Learnt { scores, seen })
}

impl Tree {
    /// The root.
    pub fn new(alloc: Global, z: &ZeroOne) -> Result<Tree, AllocError> {
        let learnt = learnt_of(alloc, z)?;
        let rounds = Rounds::new(alloc, z)?;
        Ok(Tree {
            rounds,
            arms: Vec::new(alloc),
            scores: learnt.scores,
            changes: Vec::new(alloc),
            has_scores: false,
            hints: Vec::new(alloc),
            seen: learnt.seen,
            stamp: 0,
            has_begun: false,
            lower: 0,
            need: FAR,
            open: 0,
            leaves: 0,
            multipliers: 0,
            budget: 0,
            is_off: false,
            is_doubtful: false,
            is_hopeless: false,
            is_lost: false,
            is_fine: false,
            is_open: false,
            dive_work: 0,
        })
    }

    /// The search of the tree begins, with at most so many branches.
    pub fn begin(&mut self, budget: u32) {
        self.has_begun = true;
        self.lower = self.rounds.lower();
        self.budget = u64::from(budget);
        self.rounds.limit_to(WORK);
        self.rounds.clear_queue();
        self.rounds.forget();
        self.rounds.set_log(true);
    }

    /// How many branches are above the node.
    pub fn depth(&self) -> usize {
        self.arms.len()
    }

    /// The column to branch on with these columns fixed, if the rounds tell one.
    pub fn choice(&mut self, alloc: Global, z: &ZeroOne, fixed: &[Option<bool>]) -> Option<u32> {
        if !self.has_begun {
            self.begin(0);
        }
        let need = self.need;
        if self.follow(fixed) {
            self.runs(need);
        }
        self.pick(alloc, z, need)
    }

    /// Whether rounds may still go.
    pub fn may_go_on(&self) -> bool {
        !self.is_off && !self.rounds.is_spent() && self.multipliers < MULTIPLIERS
    }

    /// Whether the exchanges are to be taken up again.
    pub fn is_later(&self) -> bool {
        self.open == LATER && self.rounds.has_prices() && self.may_go_on()
    }

    /// How many of the branches above the node still stand with these columns fixed.
    fn standing(&self, fixed: &[Option<bool>]) -> usize {
        for (k, arm) in self.arms.iter().enumerate() {
            if fixed.get(arm.column as usize).copied() != Some(Some(arm.value)) {
                return k;
            }
        }
        self.arms.len()
    }

    /// Notes a score.
    pub fn score(&mut self, column: u32, score: i64) {
        if let Some(it) = self.scores.get_mut(column as usize) {
            let was = *it;
            *it = score;
            put(&mut self.changes, Scored { column, was });
        }
    }

    /// The score of a column.
    pub fn score_of(&self, column: u32) -> i64 {
        self.scores.get(column as usize).copied().unwrap_or(-1)
    }

    /// Gives back the scores that were changed behind so many.
    fn unscore(&mut self, count: usize) {
        for _ in count..self.changes.len() {
            if let Some(change) = self.changes.pop() {
                if let Some(it) = self.scores.get_mut(change.column as usize) {
                    *it = change.was;
                }
            }
        }
    }

    /// Fixes the columns of all branches above the node, or unfixes them.
    fn place_arms(&mut self, is_fixed: bool) {
        for arm in &self.arms {
            let place = if is_fixed { Some(arm.value) } else { None };
            self.rounds.place(arm.column, place);
        }
        self.rounds.clear_queue();
    }

    /// Goes back above the last branch.
    fn leave(&mut self) {
        if let Some(arm) = self.arms.pop() {
            self.rounds.place(arm.column, None);
            self.rounds.clear_queue();
            self.rounds.roll_back(arm.log);
            self.unscore(arm.scores);
        }
    }

    /// Goes below one branch more.
    fn enter(&mut self, column: u32, value: bool) {
        let log = self.rounds.log_mark();
        put(
            &mut self.arms,
            Arm {
                column,
                value,
                log,
                scores: self.changes.len(),
            },
        );
        self.rounds.place(column, Some(value));
        self.rounds.clear_queue();
    }

    /// Goes to the node with these columns fixed. Whether it was elsewhere.
    pub fn follow(&mut self, fixed: &[Option<bool>]) -> bool {
        let standing = self.standing(fixed);
        let mut is_moved = false;
        for _ in standing..self.arms.len() {
            self.leave();
            is_moved = true;
        }
        for (j, place) in fixed.iter().enumerate() {
            if let (Some(value), Ok(j)) = (place, u32::try_from(j)) {
                if self.rounds.is_free(j) {
                    self.enter(j, *value);
                    is_moved = true;
                }
            }
        }
        is_moved
    }

    /// Goes back above all branches. Where the rounds haven't begun, they do.
    pub fn go_to_root(&mut self) {
        for _ in 0..self.arms.len() {
            self.leave();
        }
        if !self.has_begun {
            self.rounds.limit_to(ROOT_WORK);
            self.rounds.run_long(FAR, ROOT_RUN);
            self.begin(0);
        }
    }

    /// Some rounds, until the bound is above `need` or a window gains too little. Whether it is.
    pub fn runs(&mut self, need: i128) -> bool {
        let is_fine = self.is_fine || self.open < FINE_NODES;
        let effort = if is_fine { FINE } else { COARSE };
        let rounds = if self.arms.is_empty() {
            ROOT_ROUNDS
        } else {
            effort.rounds
        };
        self.rounds.set_tolerance(effort.tolerance);
        let mut was = self.rounds.bound();
        self.rounds.begin_means();
        for k in 1..rounds.saturating_add(1) {
            if self.rounds.is_still() {
                break;
            }
            self.rounds.round();
            if self.rounds.bound() > need {
                break;
            }
            if k % WINDOW == 0 {
                self.rounds.end_window(false);
                let gain = self.rounds.bound().wrapping_sub(was);
                was = self.rounds.bound();
                if gain.wrapping_mul(effort.pace) < need.wrapping_sub(was) {
                    break;
                }
            }
        }
        self.rounds.end_means();
        self.rounds.bound() > need
    }

    /// Whether the rounds' multipliers show the claim at the node with these columns fixed.
    pub fn shows(&mut self, claim: &Claim, fixed: &[Option<bool>]) -> bool {
        self.follow(fixed);
        if let (Claim::Least(_), false) = (claim, self.rounds.has_prices()) {
            self.rounds.restart(true);
        }
        let need = needed(&self.rounds, claim);
        self.need = need;
        if !self.may_go_on() {
            return false;
        }
        if self.rounds.bound() > need {
            return true;
        }
        self.runs(need)
    }

    /// Whether a dive from the open node is due: at the first ones, then at each so many, within its share of the work.
    pub fn is_dive_due(&self) -> bool {
        let spent = WORK.saturating_sub(self.rounds.left());
        self.is_open
            && (self.open <= FIRST_DIVES || self.open % DIVE_EVERY == 0)
            && self.dive_work.saturating_mul(DIVE_SHARE) <= spent.saturating_add(DIVE_START)
            && self.may_go_on()
    }

    /// Makes the best vector cheaper by a dive from the node.
    pub fn dive(&mut self, alloc: Global, z: &ZeroOne, best: &mut Best) -> Result<(), AllocError>
        requires valid { IsValid z.now }
        requires best { IsBest z.now best.old }
        ensures best { IfOk result (λ _. IsBest z.now best.new) }
        ensures start { IfOk result (λ _. best.new.start ≡ best.old.start) }
        ensures weaker { IfOk result (λ _. IsWeaker best.old.claim best.new.claim) }
    {
        let before = self.rounds.work();
        self.is_open = false;
        let done = dive_below(alloc, z, best, &mut self.rounds);
        let work = self.rounds.work().saturating_sub(before);
        self.dive_work = self.dive_work.saturating_add(work);
        done
    }

    /// Makes the best vector cheaper with no column fixed, and comes back.
    pub fn exchange_again(
        &mut self,
        alloc: Global,
        z: &ZeroOne,
        best: &mut Best,
    ) -> Result<(), AllocError>
        requires valid { IsValid z.now }
        requires best { IsBest z.now best.old }
        ensures best { IfOk result (λ _. IsBest z.now best.new) }
        ensures start { IfOk result (λ _. best.new.start ≡ best.old.start) }
        ensures weaker { IfOk result (λ _. IsWeaker best.old.claim best.new.claim) }
    {
        self.open = self.open.saturating_add(1);
        self.place_arms(false);
        let lower = self.lower;
        let done = improve_again(alloc, z, best, &mut self.rounds, lower);
        self.place_arms(true);
        done
    }

    /// The share of the tree that lies before the node, in parts of 2^40.
    fn share(&self) -> u64 {
        let mut share: u64 = 0;
        let mut part: u64 = 1 << 39;
        for arm in &self.arms {
            if arm.value {
                share = share.saturating_add(part);
            }
            part /= 2;
        }
        share
    }

    /// A leaf was closed.
    pub fn note_leaf(&mut self, leaf: &CertNode) {
        self.is_open = false;
        self.leaves = self.leaves.saturating_add(1);
        if let CertNode::Bound(_, rows) | CertNode::Clash(rows) = leaf {
            self.multipliers = self.multipliers.saturating_add(rows.len());
        }
    }

    /// Notes what is missing at the root, and the best of what the weaker arms gain there by probes that show at least the
    /// part of one in so many.
    pub fn note_gains(&mut self, lack: i128, gain: i64, part: i128) {
        let levels = 64_u32
            .saturating_sub(self.budget.leading_zeros())
            .saturating_add(DOUBT_LEVELS);
        let most = i128::from(gain).wrapping_mul(i128::from(levels));
        self.is_doubtful = gain >= DOUBT_GAIN && lack > most;
        self.is_hopeless = lack > most.wrapping_mul(part);
        self.is_lost = self.is_hopeless && gain >= DOUBT_GAIN;
    }

    /// Whether it is time to ask for hope.
    fn is_hope_due(&self) -> bool {
        let work = WORK.saturating_sub(self.rounds.left());
        if self.is_doubtful {
            return self.open % DOUBT_EVERY == 0;
        }
        self.open % HOPE_EVERY == 0 && work > HOPE_WORK
    }

    /// The node wasn't closed. Where a quarter of the budget can't close the tree by the share that is closed so far, the rounds
    /// end. They do so after the exchanges in a tree that is lost.
    pub fn leave_open(&mut self) {
        self.open = self.open.saturating_add(1);
        self.is_open = true;
        if self.is_lost && self.open > LOST_AFTER {
            self.is_off = true;
        }
        if self.is_hope_due() {
            let budget = u128::from(self.budget).wrapping_mul(4);
            let hope = u128::from(self.share()).wrapping_mul(budget);
            if hope < u128::from(self.open).wrapping_mul(1 << 40) {
                self.is_off = true;
            }
        }
    }
}

/// A column is in doubt from here on.
pub const FRACTION_LIMIT: i64 = ONE / 20;
