//! Certificates, trees of branches in preorder, and what they claim.

/// A node of a tree of branches. The rows of a leaf come with their multipliers.
#[derive(Drop)]
pub enum CertNode {
    /// Two subtrees follow: this column at 0, then at 1.
    Branch(u32),
    /// A leaf closed by a bound, with its denominator.
    Bound(u32, Vec<(u32, u32)>),
    /// A leaf closed because its rows can't hold together.
    Clash(Vec<(u32, u32)>),
    /// A leaf that nothing closes.
    Left,
}

/// A tree in preorder, the arm of value 0 first.
#[derive(Drop)]
pub struct Cert {
    pub nodes: Vec<CertNode>,
}

/// What a certificate may prove.
#[derive(Clone, Copy, Drop)]
pub enum Claim {
    /// Each vector that meets the rows costs at least this.
    Least(u64),
    /// No vector meets the rows.
    Nothing,
}
