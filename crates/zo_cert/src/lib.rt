//! Reports on 0-1 programs: a verdict and the certificate that proves it, and their text.
#![tactic(auto)]

mod fits;
pub mod laws;
pub mod report;
pub mod report_reader;
pub mod report_text;

pub use report::{Report, Verdict, check_report, is_valid_report};
pub use report_reader::read_report;
pub use report_text::print_report;
pub use zo_cert_tree::{Cert, CertNode, Claim, Fixed, Work, check, shaped};
pub use zo_model::{Assignment, NoMemory, Row, ZeroOne, ZoError};
