//! Bytes in memory that are read only.
ghost use Rattle.std.specs.Prelude.{◌≡◌, false};

use cm_device_disk::Device;
use cm_disk::DeviceFault;

/// A device that reads bytes in memory, such as a mapped file. Its writes, cuts and syncs fail.
#[derive(Clone, Copy, Debug)]
pub struct SliceDevice<'a> {
    bytes: &'a [u8],
}

impl<'a> SliceDevice<'a> {
    /// The device of these bytes.
    pub fn new(bytes: &'a [u8]) -> SliceDevice<'a>
        ensures { result.bytes.now ≡ bytes.now }
    {
        SliceDevice { bytes }
    }
}

impl Device for SliceDevice<'_> {
    type Fault = DeviceFault;

    ghost does = { λ call old new ok. (new ≡ old) × (ok ≡ false) };

    fn read(&self, at: u64, out: &mut [u8]) -> Result<(), DeviceFault> {
        let Some(rest) = self.bytes.get(at as usize..) else {
            return Err(DeviceFault);
        };
        let Some(bytes) = rest.get(..out.len()) else {
            return Err(DeviceFault);
        };
        out.copy_from_slice(bytes);
        Ok(())
    }

    fn write(&mut self, _at: u64, _bytes: &[u8]) -> Result<(), DeviceFault> {
        Err(DeviceFault)
    }

    fn cut(&mut self, _len: u64) -> Result<(), DeviceFault> {
        Err(DeviceFault)
    }

    fn sync(&mut self) -> Result<(), DeviceFault> {
        Err(DeviceFault)
    }
}
