//! Laws of re-sampling, without code, and what it gives on worked values.

ghost use Rattle.prta_resample.specs.Laws.{ResamplingsKeepChances};
ghost use Rattle.prta_resample.specs.WorkedResamplings.{WorkedResamplings};

/// A re-sampled list of chances is one, of the same length and with the same last cell. In Up no cell rises, in Down
/// none falls.
pub fn resamplings_keep_chances()
    ensures { ResamplingsKeepChances }
{}

/// Support points, re-sampled lists and moved amounts.
pub fn worked_resamplings()
    ensures { WorkedResamplings }
{}
