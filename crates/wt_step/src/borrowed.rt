// Good restrict steps, borrowed.
ghost use Rattle.std.specs.Prelude.{◌≡◌, None};
ghost use Rattle.wt_step.specs.Restrict as spec;

use crate::RawRestrict;

/// A good restrict step, borrowed.
#[derive(Clone, Copy)]
pub struct RestrictRef<'a> {
    /// The step as it was read.
    pub raw: &'a RawRestrict,
    pub ghost good: { spec.restrict_fault raw.now ≡ None },
}

impl<'a> RestrictRef<'a> {
    /// The step as it was read, borrowed.
    pub fn raw(self) -> &'a RawRestrict
        ensures { result.now ≡ self.entry.raw.now }
    {
        self.raw
    }
}
