// A disk of numbered files: what a read gives, and what a crash may leave.
ghost use Rattle.std.specs.Prelude.{◌≡◌, ◌+◌, ◌-◌, ◌^◌, ◌≤◌, IsTrue, length, take, drop, min, IfOk, OnOk, OnErr};
ghost use Rattle.arch_disk.specs.Image.{Torn, Shortened, InFile, Becomes, overwritten};
ghost use Rattle.arch_disk.specs.Disk.{Device, Follows, AddsNoImage, IsDurable, Elapses, HasCause, CountsFailure, NoWriteFailed};

use thiserror::Error;

/// A call of a disk failed.
#[derive(Clone, Copy, Debug, PartialEq, Eq, Error)]
#[error("the disk failed")]
pub struct Failed;

/// Files by number, in octets. A file that was never written has length 0.
pub trait Disk {
    /// What the values of this type mean, and the laws of these meanings.
    ghost device: { Device Self };

    /// The length of a file in octets.
    fn len(&mut self, file: u32) -> Result<u64, Failed>
        ensures length { IfOk result (λ n. IsTrue device.is_transparent → n ≡ length (device.reads self.old file)) }
        ensures reads { device.reads self.new ≡ device.reads self.old }
        ensures crash { AddsNoImage device self.old self.new }
        ensures time { Elapses device self.old self.new }
        ensures cause { HasCause device self.old self.new result }
        ensures writes { NoWriteFailed device self.old self.new };

    /// Fills `into` whole with the octets from `at` on.
    fn read_at(&mut self, file: u32, at: u64, into: &mut [u8]) -> Result<(), Failed>
        requires { IsTrue device.is_transparent → at + length into.old ≤ length (device.reads self.old file) }
        ensures octets { OnOk result (IsTrue device.is_transparent →
            into.new ≡ take (length into.old) (drop at (device.reads self.old file))) }
        ensures len { length into.new ≡ length into.old }
        ensures reads { device.reads self.new ≡ device.reads self.old }
        ensures crash { AddsNoImage device self.old self.new }
        ensures time { Elapses device self.old self.new }
        ensures cause { HasCause device self.old self.new result }
        ensures writes { NoWriteFailed device self.old self.new };

    /// Writes over what stands there, and past the end. It begins at most at the end.
    fn write_at(&mut self, file: u32, at: u64, from: &[u8]) -> Result<(), Failed>
        requires { IsTrue device.is_transparent → at ≤ length (device.reads self.old file) }
        ensures written { OnOk result (IsTrue device.is_transparent →
            InFile (Becomes (overwritten at from.now)) file (device.reads self.old) (device.reads self.new)) }
        ensures torn { OnErr result (IsTrue device.is_transparent →
            InFile (Torn at (length from.now)) file (device.reads self.old) (device.reads self.new)) }
        ensures crash { Follows device (InFile (Torn at (length from.now)) file) self.old self.new }
        ensures time { Elapses device self.old self.new }
        ensures cause { HasCause device self.old self.new result }
        ensures writes { CountsFailure device self.old self.new result };

    /// Cuts a file to a length; a shorter file stays as it is.
    fn cut(&mut self, file: u32, len: u64) -> Result<(), Failed>
        ensures done { OnOk result (IsTrue device.is_transparent →
            InFile (Becomes (take len)) file (device.reads self.old) (device.reads self.new)) }
        ensures torn { OnErr result (IsTrue device.is_transparent →
            InFile (Shortened len) file (device.reads self.old) (device.reads self.new)) }
        ensures crash { Follows device (InFile (Shortened len) file) self.old self.new }
        ensures time { Elapses device self.old self.new }
        ensures cause { HasCause device self.old self.new result }
        ensures writes { CountsFailure device self.old self.new result };

    /// After it, a crash leaves of this file what a read gives.
    fn sync(&mut self, file: u32) -> Result<(), Failed>
        ensures durable { OnOk result (IsDurable device file (device.reads self.old file) self.new) }
        ensures reads { device.reads self.new ≡ device.reads self.old }
        ensures crash { AddsNoImage device self.old self.new }
        ensures time { Elapses device self.old self.new }
        ensures cause { HasCause device self.old self.new result }
        ensures writes { CountsFailure device self.old self.new result };

    /// The count of faults, up to the last value of its type.
    fn faults(&self) -> u64
        ensures { result ≡ min (device.fault_count self.now) (2 ^ 64 - 1) };
}
