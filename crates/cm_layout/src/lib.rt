//! The region file: where its parts are, its slots, its rows, and which contents frame them.
#![tactic(auto)]

mod chunk_field;
mod class_row;
mod entry;
mod entry_rule;
mod half;
mod heads;
mod kind;
mod laws;
mod loader_numbers;
mod loader_row;
mod move_entry;
mod name;
mod offsets;
mod row;
mod slot;
mod slots;
mod superblock;
mod unload;
mod unload_all;

pub use class_row::ClassRow;
pub use entry::{Entry, GROUP_SLOTS};
pub use entry_rule::EntryRule;
pub use half::Half;
pub use heads::{ENTRY_VERSION, GroupHead, HalfHead, LAST_NUMBER, OLDEST_VERSION};
pub use laws::{
    agreement_frames, contents_determine_head, contents_determine_rows, frames_are_matched,
    live_rows_go_on, loaders_are_own, moves_stand, rows_are_apart, rows_stay_live,
    slot_determines_entry, slot_determines_head,
};
pub use loader_numbers::{LoaderNumbers, UNLOAD_LIMIT};
pub use loader_row::LoaderRow;
pub use move_entry::Move;
pub use name::{LONG_NAME_ROOM, NAME_LIMIT, NAME_ROOM, SlotName, is_loader_name, slots_of_name};
pub use offsets::{
    half_at, half_bytes, record_at, root_at, root_bytes, roots_at, row_limit, slot_at,
};
pub use row::Row;
pub use slot::{OPEN_GATE, SLOT_BYTES, SUPERBLOCK_BYTES, front_slot, is_rest};
pub use slots::Slots;
pub use superblock::Superblock;
pub use unload::Unload;
pub use unload_all::UnloadAll;
