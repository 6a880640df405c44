//! The cache as a library: what a program needs of it in one crate, a call that opens a cache, and
//! one that has threads use it, and closes it.
#![tactic(auto)]

mod counts;
mod opening;
mod running;
mod work;

pub use cm_cache::{Cache, Naming, Pass};
pub use cm_commands::{Names, PrepareFault, Prepared, Refusal, prepare};
pub use cm_disk::{Disk, SimDisk};
pub use cm_file_disk::{CreateError, FileDisk, OpenError, create as create_file};
pub use cm_pool::Geometry;
pub use cm_record::Record;
pub use cm_recover::{FormatFault, NotOpened, format};
pub use cm_region_file::{open as open_file, open_in_threads as open_file_in_threads};
pub use cm_verdict::{Damage, FileFault, OpenFault};
pub use counts::Counts;
pub use opening::{Opened, open};
pub use running::{Finished, NotStarted};
pub use work::Work;
