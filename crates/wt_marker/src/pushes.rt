//! Elements that are appended where they are wanted.
ghost use Rattle.std.specs.Prelude.{◌≡◌, ◌++◌, ◌∷◌, [], true, false, OnOk};
ghost use Rattle.wt_marker.specs.Gather.{only_if};

use std::alloc::AllocError;

/// Appends an element where it is wanted.
pub fn push_if<T: Copy>(out: &mut Vec<T>, wanted: bool, item: T) -> Result<(), AllocError>
    ensures { OnOk result (out.new.items ≡ out.old.items ++ only_if wanted item) }
{
    if wanted {
        out.push(item)?;
    }
    Ok(())
}
