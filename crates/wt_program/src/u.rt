// The set of the sample.
ghost use Rattle.std.specs.Prelude.{◌≡◌, None, IfOk};
ghost use Rattle.wt_tile.specs.Sets.{set_fault};
ghost use Rattle.wt_program.specs.Samples.{IsU};

use std::alloc::{AllocError, Global};
use wt_pattern::{TextFault, read_set};
use wt_tile::TileList;

/// Labbé's set U, a line for each tile: right, top, left, bottom.
const U: &[u8] =
    b"F O J O\nF O H L\nJ M F P\nD M F K\nH P J P\nH P H N\nH K F P\nH K D P\nB O I O\nG L E O\nG L C L\nA L I O\nE P G P\nE P I P\nI P G K\nI P I K\nI K B M\nI K A K\nC N I P\n";

/// The set U. Fails only where memory runs out.
pub fn u(alloc: Global) -> Result<TileList, AllocError>
    ensures set { IfOk result IsU }
    ensures good { IfOk result (λ list. set_fault list ≡ None) }
{
    match read_set(alloc, U, 19) {
        Ok(list) => Ok(list),
        Err(TextFault::OutOfMemory) => Err(AllocError),
        Err(TextFault::Syntax { .. }) => unreachable!(),
        Err(TextFault::Limit { .. }) => unreachable!(),
    }
}
