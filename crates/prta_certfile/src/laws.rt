//! Laws of the definitions, and what they give on worked values, without code.

ghost use Rattle.prta_certfile.specs.Laws.{StepsAreLists, CertificatesAreRead, ReadTextsArePrinted, PrefixesAreRefused, StatedLimits};
ghost use Rattle.prta_certfile.specs.Worked.{WorkedCertificates};

/// A list of chances is determined by its steps, and steps that rise below a cap by the list; either is whole where the
/// other is.
pub fn steps_are_lists()
    ensures { StepsAreLists }
{}

/// The text of a level for each task, whose steps lie below the cap of the accepted sheet and are whole, has no fault
/// and states these levels; so it isn't longer than the limit.
pub fn certificates_are_read()
    ensures { CertificatesAreRead }
{}

/// Bytes without a fault state such levels, and are the text of these.
pub fn read_texts_are_printed()
    ensures { ReadTextsArePrinted }
{}

/// A proper prefix of bytes without a fault is refused at the line after its last line feed.
pub fn prefixes_are_refused()
    ensures { PrefixesAreRefused }
{}

/// The limit as a number.
pub fn stated_limits()
    ensures { StatedLimits }
{}

/// The text of worked certificates, how it is read, and its faults where it is changed.
pub fn worked_certificates_text()
    ensures { WorkedCertificates }
{}
