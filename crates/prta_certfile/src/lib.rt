//! The text of a certificate, both ways: for each task of a sheet a list of chances by the places where it rises, or
//! why there is none.
#![tactic(auto)]

mod certificate;
mod cut;
mod fault;
mod laws;
mod level;
mod limits;
mod line;
mod reading;
mod said;
mod steps;
#[cfg(test)]
mod tests;
mod text;

pub use certificate::Certificate;
pub use fault::CertFault;
pub use laws::{
    certificates_are_read, prefixes_are_refused, read_texts_are_printed, stated_limits,
    steps_are_lists, worked_certificates_text,
};
pub use level::CertLevel;
pub use limits::CERT_LIMIT;
pub use reading::read_cert;
pub use steps::StepList;
pub use text::cert_text;
