//! Certificates for 0-1 programs: their trees, the text of their nodes, and whether one proves a claim. A certificate is a
//! tree of branches on columns. Each leaf is closed by a bound: a sum of rows with multipliers that no vector within the
//! leaf's fixed columns can beat.
#![tactic(auto)]

pub mod cert;
pub mod checking;
pub mod closing;
pub mod leaf;
pub mod limits;
pub mod multipliers;
pub mod node_reader;
pub mod node_text;
pub mod path;
pub mod shape;
pub mod spent;

pub use cert::{Cert, CertNode, Claim};
pub use checking::{Work, check, shaped};
pub use closing::closes;
pub use limits::{has_left, is_node};
pub use path::{Fixed, Path};
pub use spent::is_spent;
