//! Groups: what the accepted cache hands to its disk at once, and the receipts that come back.
#![tactic(auto)]

mod carried;
mod group;
mod moved;
mod receipt;
mod room;

pub use carried::CarriedEntry;
pub use group::Group;
pub use moved::MovedRecords;
pub use receipt::Receipt;
pub use room::GroupRoom;
