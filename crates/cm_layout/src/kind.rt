//! What a slot is, as its byte 1 says.

pub(crate) const HALF_HEAD: u8 = 0x01;

pub(crate) const GROUP_HEAD: u8 = 0x02;

pub(crate) const LOADER: u8 = 0x11;

pub(crate) const CLASS: u8 = 0x12;

pub(crate) const UNLOAD: u8 = 0x13;

pub(crate) const MOVE: u8 = 0x14;

pub(crate) const UNLOAD_ALL: u8 = 0x15;

pub(crate) const REST: u8 = 0x16;
