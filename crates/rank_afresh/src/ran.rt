//! The processors on which what runs may be another.
ghost use Rattle.std.specs.Prelude.{◌≡◌, if◌then◌else◌};
ghost use Rattle.rank_afresh.specs.declared.ran.Ran.TheVariants.{At, Nowhere};
ghost use Rattle.rank_afresh.specs.inside.Rans.{is_nowhere};

use rt_base::CpuNo;

/// The processors on which what runs may be another than it was when links were placed.
#[derive(Clone, Copy)]
pub(crate) enum Ran {
    Nowhere,
    At(CpuNo),
    Anywhere,
}

impl Ran {
    /// The processor, unless it runs what it ran.
    pub(crate) fn at(cpu: CpuNo, stays: bool) -> Ran
        ensures { result ≡ (if stays then Nowhere else At cpu) }
    {
        if stays { Ran::Nowhere } else { Ran::At(cpu) }
    }

    /// Whether there are none.
    pub(crate) fn is_nowhere(self) -> bool
        ensures { result ≡ is_nowhere self }
    {
        matches!(self, Ran::Nowhere)
    }
}
