ghost use Rattle.std.specs.Prelude.{◌≡◌, ◌≤◌, ◌<◌};
ghost use Rattle.pcapng_io.specs.Times.{seconds_of, nanos_of};

use crate::Interface;

const NANOSECONDS: u128 = 1_000_000_000;

impl Interface {
    /// The whole seconds of a time, where 32 bits hold them.
    pub(crate) fn seconds(self, time: u64) -> Option<u32>
        requires { 1 ≤ self.units }
        ensures { result ≡ seconds_of self time }
    {
        let seconds = i128::from(time / self.units) + i128::from(self.offset);
        if 0 <= seconds && seconds <= i128::from(u32::MAX) {
            Some(seconds as u32)
        } else {
            None
        }
    }

    /// The rest of a time in nanoseconds.
    pub(crate) fn nanos(self, time: u64) -> u32
        requires { 1 ≤ self.units }
        ensures { result ≡ nanos_of self time }
    {
        (u128::from(time % self.units) * NANOSECONDS / u128::from(self.units)) as u32
    }
}
