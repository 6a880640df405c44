//! A disk that opens no file and doesn't wait: its calls are noted, for the caller to make.
#![tactic(auto)]

mod call;
mod last;
mod listed;
mod slice;

pub use call::Call;
use cm_device_disk::DeviceDisk;
use cm_disk::DeviceFault;
pub use last::LastCall;
pub use listed::ListedCalls;
pub use slice::SliceDevice;

/// A disk whose last write, cut or sync is noted, for a cache that makes one at a time.
pub type DeferredDisk = DeviceDisk<LastCall, DeviceFault>;

/// A disk whose writes, cuts and syncs are all noted, in their order.
pub type ListedDisk = DeviceDisk<ListedCalls, DeviceFault>;
