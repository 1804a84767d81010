//! Certificates on worked values.

ghost use Rattle.prta_certificate.specs.Worked.{WorkedCertificates};

/// Levels with a certificate by an image and by a lowered list, one that is empty at the end of each hyperperiod, one whose
/// work is above the hyperperiod and one whose peak is not below the cap.
pub fn worked_certificates()
    ensures { WorkedCertificates }
{}
