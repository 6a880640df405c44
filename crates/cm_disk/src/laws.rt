//! What the terms of the disk model mean, as laws.
ghost use Rattle.std.specs.Prelude.{◌≡◌, ◌≤◌, ◌↔◌, List, ℕ, length, take, drop};
ghost use Rattle.cm_disk.specs.Disk.{Unsynced, IsBytes, IsImage, IsDurable, IsSound, widened};
ghost use Rattle.cm_disk.specs.Disk.{shortened};
ghost use Rattle.cm_disk.specs.Calls.{overwritten, IsTorn, IsCut};
ghost use Rattle.cm_disk.specs.Chosen.{IsChosen};

/// Once everything is durable, a crash leaves the bytes that are there, and nothing else.
pub fn durable_has_one_image()
    ensures { (contents image : List ℕ) (unsynced : Unsynced) → IsBytes contents
        → IsDurable contents unsynced
        → (IsImage contents unsynced image ↔ (image ≡ contents)) }
{}

/// A crash during or after a write to a disk on which everything was durable leaves any bytes in
/// the range, any of the lengths, and what was there elsewhere.
pub fn write_is_torn_in_its_range()
    ensures { (at n : ℕ) (contents image : List ℕ) (unsynced : Unsynced) → at ≤ length contents
        → IsDurable contents unsynced
        → IsImage contents (widened at n unsynced) image → IsTorn at n contents image }
{}

/// Every torn write is such an image.
pub fn torn_write_is_an_image()
    ensures { (at n : ℕ) (contents image : List ℕ) (unsynced : Unsynced)
        → IsDurable contents unsynced
        → IsBytes image → IsTorn at n contents image
        → IsImage contents (widened at n unsynced) image }
{}

/// What was written is read back, and the bytes outside the range are unchanged.
pub fn write_is_read_back()
    ensures { (at : ℕ) (bytes old : List ℕ) → at ≤ length old
        → (take (length bytes) (drop at (overwritten at bytes old)) ≡ bytes)
        × IsTorn at (length bytes) old (overwritten at bytes old) }
{}

/// A choice always yields an image that a crash may leave.
pub fn chosen_is_an_image()
    ensures { (contents fill image : List ℕ) (unsynced : Unsynced) (len : ℕ)
        → IsSound contents unsynced → IsBytes fill → IsChosen contents unsynced len fill image
        → IsImage contents unsynced image }
{}

/// Each image that a crash may leave is the result of some choice: its length, and a byte for each
/// of its unsynced positions.
pub fn image_has_a_choice()
    ensures { (contents image : List ℕ) (unsynced : Unsynced) → IsImage contents unsynced image
        → ((fill : List ℕ) × IsBytes fill × (length fill ≤ length image)
        × IsChosen contents unsynced (length image) fill image) }
{}
