//! What a placement says of a value, an access, an operand and a point. Its lists are in order, as those of one that fits
//! are, so each is searched by halves.

ghost use Rattle.std.specs.Prelude.{◌≡◌, ℕ, true, false, [], map, MatchOption};
ghost use Rattle.std.specs.List.Sorted.{IsNonDecreasingBy};
ghost use Rattle.nv_base.specs.Sets.{is_in};
ghost use Rattle.place_plan.specs.Fits.{Rises};
ghost use Rattle.place_plan.specs.Plan.{plan_view, home_view, homeless, home, home_in, first, first_in, serve, serve_in, pass, pass_in};

use crate::place::{First, Home, Pass, Place, Placement, Serve};

/// The home of a value.
fn home_among(homes: &[Home], x: u32) -> Option<&Home>
    requires { Rises (map (λ h. h.var) (map home_view homes.now)) }
    ensures home { MatchOption result (home_in (map home_view homes.now) x ≡ homeless x) (λ h. home_in (map home_view homes.now) x ≡ home_view h.now) }
    ensures there { MatchOption result (is_in x (map (λ h. h.var) (map home_view homes.now)) ≡ false) (λ _. is_in x (map (λ h. h.var) (map home_view homes.now)) ≡ true) }
{
    match homes.binary_search_by_key(&x, |h| h.var) {
        Ok(i) => Some(&homes[i]),
        Err(_) => None,
    }
}

/// The access at a point.
fn first_among(firsts: &[First], k: u128) -> Option<First>
    requires { Rises (map (λ f. f.point) firsts.now) }
    ensures { MatchOption result (first_in firsts.now k ≡ 0) (λ f. first_in firsts.now k ≡ f.first) }
{
    match firsts.binary_search_by_key(&k, |f| f.point as u128) {
        Ok(i) => Some(firsts[i]),
        Err(_) => None,
    }
}

/// The pass of a point.
fn pass_among(passes: &[Pass], k: u128) -> Option<Pass>
    requires { Rises (map (λ q. q.point) passes.now) }
    ensures { MatchOption result (pass_in passes.now k ≡ pass_in [] k) (λ q. pass_in passes.now k ≡ q) }
{
    match passes.binary_search_by_key(&k, |q| q.point as u128) {
        Ok(i) => Some(passes[i]),
        Err(_) => None,
    }
}

/// The operands of a point.
fn serves_at(serves: &[Serve], k: u128) -> &[Serve]
    requires { IsNonDecreasingBy (λ s. s.point) serves.now }
    ensures { (i : ℕ) → serve_in result.now k i ≡ serve_in serves.now k i }
{
    let from = serves.partition_point(|s| (s.point as u128) < k);
    let rest = &serves[from..];
    let count = rest.partition_point(|s| s.point as u128 <= k);
    &rest[..count]
}

/// The operand of a number among those of a point.
fn serve_among(serves: &[Serve], k: u128, i: u128) -> (Place, Place)
    ensures from { result.0 ≡ (serve_in serves.now k i).from }
    ensures at { result.1 ≡ (serve_in serves.now k i).at }
{
    for s in serves {
        if s.point as u128 == k && s.operand as u128 == i {
            return (s.from, s.at);
        }
    }
    (Place::Slot(0), Place::Slot(0))
}

impl Placement {
    /// The home of a value, where it has one.
    pub fn home_of(&self, x: u32) -> Option<&Home>
        requires { Rises (map (λ h. h.var) (plan_view self.now).homes) }
        ensures { MatchOption result (home (plan_view self.now) x ≡ homeless x) (λ h. home (plan_view self.now) x ≡ home_view h.now) }
    {
        home_among(&self.homes, x)
    }

    /// Whether a value has a home.
    pub fn has_home(&self, x: u32) -> bool
        requires { Rises (map (λ h. h.var) (plan_view self.now).homes) }
        ensures { result ≡ is_in x (map (λ h. h.var) (plan_view self.now).homes) }
    {
        match home_among(&self.homes, x) {
            Some(_) => true,
            None => false,
        }
    }

    /// Where a value is first put.
    pub fn defined_of(&self, x: u32) -> Place
        requires { Rises (map (λ h. h.var) (plan_view self.now).homes) }
        ensures { result ≡ (home (plan_view self.now) x).defined }
    {
        match self.home_of(x) {
            Some(h) => h.defined,
            None => Place::Slot(0),
        }
    }

    /// Where copies of a value are put, in order.
    pub fn copied_of(&self, x: u32) -> &[Place]
        requires { Rises (map (λ h. h.var) (plan_view self.now).homes) }
        ensures { result.now ≡ (home (plan_view self.now) x).copied }
    {
        match self.home_of(x) {
            Some(h) => &h.copied,
            None => &[],
        }
    }

    /// The first register of the access at a point.
    pub fn first_of(&self, k: u128) -> u8
        requires { Rises (map (λ f. f.point) (plan_view self.now).firsts) }
        ensures { result ≡ first (plan_view self.now) k }
    {
        match first_among(&self.firsts, k) {
            Some(f) => f.first,
            None => 0,
        }
    }

    /// From where and at which place an operand of a point is served.
    pub fn serve_of(&self, k: u128, i: u128) -> (Place, Place)
        requires { IsNonDecreasingBy (λ s. s.point) (plan_view self.now).serves }
        ensures from { result.0 ≡ (serve (plan_view self.now) k i).from }
        ensures at { result.1 ≡ (serve (plan_view self.now) k i).at }
    {
        serve_among(serves_at(&self.serves, k), k, i)
    }

    /// Through which registers slots are read and written at a point.
    pub fn pass_of(&self, k: u128) -> (Option<u8>, Option<u8>)
        requires { Rises (map (λ q. q.point) (plan_view self.now).passes) }
        ensures l { result.0 ≡ (pass (plan_view self.now) k).l }
        ensures s { result.1 ≡ (pass (plan_view self.now) k).s }
    {
        match pass_among(&self.passes, k) {
            Some(q) => (q.l, q.s),
            None => (None, None),
        }
    }
}
