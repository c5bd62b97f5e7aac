//! From a relayer's script to texts: `run_over`, which goes from the text of a script to its report
//! (`report_over` also answers it); of a script that is there as data `write_report_of` does the same,
//! `report_of` makes the report without writing it, `health_of_script` tells when clients expire, and `certify_script`
//! judges a certificate.
#![tactic(auto)]

mod case;
mod certifying;
mod health;
mod running;
mod threads;

pub use certifying::certify_script;
pub use health::health_of_script;
pub use running::{report_of, report_over, run_over, write_report_of};
pub use threads::{Shares, shares_of};
