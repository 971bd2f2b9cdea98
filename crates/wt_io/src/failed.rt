// The one failure of a device.

/// A device failed: it moved nothing, and counted a fault. It is the only failure of a device.
#[derive(Clone, Copy, Debug, PartialEq, Eq)]
pub struct Failed;
