//! Chunks as slots have them: root, order and place, four bytes each.

ghost use Rattle.std.specs.Prelude.{◌≡◌, ◌≤◌, ◌++◌, List, ℕ, length, drop};
ghost use Rattle.cm_layout.specs.Slots.{chunk_bytes, FitsChunk};

use byteorder::{ByteOrder, LittleEndian};
use cm_pool::Chunk;

/// Writes a chunk over the first bytes.
pub(crate) fn write_chunk(bytes: &mut [u8], chunk: Chunk)
    requires { 12 ≤ length bytes.old }
    ensures { bytes.new ≡ chunk_bytes chunk ++ drop 12 bytes.old }
{
    LittleEndian::write_u32(bytes, chunk.root);
    LittleEndian::write_u32(&mut bytes[4..], chunk.order);
    LittleEndian::write_u32(&mut bytes[8..], chunk.at);
}

/// Reads the chunk that the first bytes spell.
pub(crate) fn read_chunk(bytes: &[u8]) -> Chunk
    requires { 12 ≤ length bytes.now }
    ensures { (chunk : _) (rest : List ℕ) → FitsChunk chunk → bytes.now ≡ chunk_bytes chunk ++ rest
        → result ≡ chunk }
{
    Chunk {
        root: LittleEndian::read_u32(bytes),
        order: LittleEndian::read_u32(&bytes[4..]),
        at: LittleEndian::read_u32(&bytes[8..]),
    }
}
