//! What a disk over a device asks of it.
ghost use Rattle.std.specs.Prelude.{◌≤◌, ◌+◌, ◌^◌, Bool, length, is_ok};
ghost use Rattle.cm_disk.specs.Calls.{DiskCall};
ghost use Rattle.cm_disk.specs.Calls.DiskCall.{Write, Cut, Sync};

/// Bytes that are read, written, cut and synced, such as a file. What they are is not known to
/// clauses: a [`crate::DeviceDisk`] keeps that.
pub trait Device: Drop {
    /// Why a call fails.
    type Fault: Copy;

    /// What a write, a cut or a sync does to the device: it leads from the first to the second, and
    /// returns `Ok` (true) or not.
    ghost does: { DiskCall → Self → Self → Bool → Type 0 };

    /// Reads as many bytes as `out` takes, from `at` on. After an `Err` the bytes in `out` are
    /// unspecified.
    fn read(&self, at: u64, out: &mut [u8]) -> Result<(), Self::Fault>;

    /// Overwrites what is there, and may extend past the end.
    fn write(&mut self, at: u64, bytes: &[u8]) -> Result<(), Self::Fault>
        requires { at + length bytes.now ≤ 2 ^ 40 }
        ensures { does (Write at bytes.now) self.old self.new (is_ok result) };

    /// Cuts to a length.
    fn cut(&mut self, len: u64) -> Result<(), Self::Fault>
        ensures { does (Cut len) self.old self.new (is_ok result) };

    /// Makes all that was written durable.
    fn sync(&mut self) -> Result<(), Self::Fault>
        ensures { does Sync self.old self.new (is_ok result) };
}
