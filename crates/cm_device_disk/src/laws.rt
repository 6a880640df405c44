//! What holds for two disks that are asked for the same calls, as a law.
ghost use Rattle.std.specs.Prelude.{Bool, false, true, List, ℕ, length};
ghost use Rattle.cm_disk.specs.Calls.{DiskCall};
ghost use Rattle.cm_device_disk.specs.Noting.{LeavesSince, MayAsk};
ghost use Rattle.cm_device_disk.specs.DeviceDisk.{Follows};
ghost use Rattle.cm_device_disk.specs.State.{DiskState};

/// A disk notes a call, and another, which is in the state before it, makes it. While it is made,
/// and after it was or failed, a crash of that one leaves nothing that a crash of the noting disk
/// might not have left since then. So what is proved of a disk that notes its calls holds for one
/// that makes them in their order, up to the first that fails.
pub fn made_call_leaves_no_more()
    ensures { (call : DiskCall) (before noted made : DiskState) (ok : Bool) (image : List ℕ)
        → MayAsk call before.now.bytes → Follows call false before noted true
        → Follows call false before made ok → LeavesSince made (length before.moments) image
        → LeavesSince noted (length before.moments) image }
{}
