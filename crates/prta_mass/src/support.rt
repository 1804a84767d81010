//! The stated support of a re-sampling.

ghost use Rattle.std.specs.Prelude.{◌≡◌, ◌<◌, ◌≤◌};
ghost use Rattle.prta_mass.specs.Support.{is_support};

/// The places that a list of chances keeps when it is re-sampled: 0 to `fine`, and every multiple of `step`.
#[derive(Clone, Copy, Debug, PartialEq, Eq)]
pub struct Support {
    /// Every place up to this one is kept.
    pub fine: u32,
    /// Every multiple of this is kept. A call that takes a support requires at least 1.
    pub step: u32,
}

/// Answers whether k is a support point below the cap: 0 to `fine`, a multiple of `step`, or the last cell.
pub fn is_support(s: Support, cap: usize, k: usize) -> bool
    requires below { k < cap }
    requires step { 1 ≤ s.step }
    ensures { result ≡ is_support s cap k }
{
    k <= s.fine as usize || (k % s.step as usize == 0 || k == cap - 1)
}
