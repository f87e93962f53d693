ghost use Rattle.std.specs.Prelude.{◌≡◌, ◌<◌, ℕ, IfOk, OnOk, OnErr};
ghost use Rattle.plain_machine.specs.Program.{Meaning, IsLawful};
ghost use Rattle.plain_machine.specs.declared.local.Move.TheVariants.{Access, Emit};
ghost use Rattle.plain_machine.specs.FromPlainText.{Packet};

use plain_machine::{Bytes, Local, Move, NoMemory, Text};
use std::alloc::Global;

/// A box program: the shared variables that live on between packets, and what is done with a packet, one move at a
/// time.
///
/// What its calls mean is a ghost member on plain data, so that code for any program is proved once. A program has 1 to
/// 256 variables, and ends a packet after at most 62 moves between its take and its end.
pub trait Program: Drop {
    /// The kind of value that the shared variables have.
    type Value: Drop + Send;

    /// What its calls mean on plain data.
    ghost meaning: { Self → Meaning Self.Value };

    /// The values that a variable may have.
    ghost fits: { Self → ℕ → Self.Value → Type 0 };

    /// How many shared variables there are.
    fn vars(&self) -> u32
        ensures { result ≡ (meaning self.now).vars };

    /// The first value of a variable.
    fn fresh(&self, alloc: Global, var: u32) -> Result<Self::Value, NoMemory>
        requires { var < (meaning self.now).vars }
        ensures { IfOk result (λ value. value ≡ (meaning self.now).fresh var) };

    /// Where a packet begins: its bytes, and how many it had on the wire.
    fn begin(&self, frame: &[u8], original: u32) -> Local
        ensures { (p : Packet) → p.bytes ≡ frame.now → p.original ≡ original
            → result ≡ (meaning self.now).begin p };

    /// The next move with the packet in hand.
    fn next(&self, local: &Local) -> Move
        ensures { result ≡ (meaning self.now).next local.now };

    /// Makes the touch that is next. Where there is no memory, neither the value nor the Local is changed.
    fn touch(
        &self,
        alloc: Global,
        var: u32,
        value: &mut Self::Value,
        local: &mut Local,
    ) -> Result<(), NoMemory>
        requires next { (meaning self.now).next local.old ≡ Access var }
        requires fits { fits self.now var value.old }
        ensures touched { OnOk result ((value.new, local.new)
            ≡ (meaning self.now).touch var value.old local.old) }
        ensures value_stays { OnErr result (value.new ≡ value.old) }
        ensures local_stays { OnErr result (local.new ≡ local.old) };

    /// Makes a read, which takes no memory. A program that never reads is not asked for one.
    fn look(&self, var: u32, value: &Self::Value, local: &mut Local)
        requires fits { fits self.now var value.now }
        ensures { local.new ≡ (meaning self.now).look var value.now local.old };

    /// Tells the time, in microseconds, or the random word that was asked for. A program that never asks is told
    /// nothing.
    fn told(&self, answer: u64, local: &mut Local)
        ensures { local.new ≡ (meaning self.now).told answer local.old };

    /// Goes on after the packet was sent out.
    fn emitted(&self, local: &mut Local)
        requires { (meaning self.now).next local.old ≡ Emit }
        ensures { local.new ≡ (meaning self.now).emitted local.old };

    /// The bytes to send out of a packet of these bytes, as many as they are.
    fn packet_out(
        &self,
        alloc: Global,
        frame: &[u8],
        original: u32,
        local: &Local,
    ) -> Result<Bytes, NoMemory>
        requires { (meaning self.now).next local.now ≡ Emit }
        ensures { (p : Packet) → p.bytes ≡ frame.now → p.original ≡ original
            → IfOk result (λ bytes. bytes ≡ (meaning self.now).out p local.now) };

    /// A copy that means the same.
    fn copy_value(
        &self,
        alloc: Global,
        var: u32,
        value: &Self::Value,
    ) -> Result<Self::Value, NoMemory>
        requires { fits self.now var value.now }
        ensures { IfOk result (λ copy. copy ≡ value.now) };

    /// The text that shows a value to an operator.
    fn show(&self, alloc: Global, var: u32, value: &Self::Value) -> Result<Text, NoMemory>
        requires { fits self.now var value.now }
        ensures { IfOk result (λ text. text ≡ (meaning self.now).shown var value.now) };

    ghost lawful: { (p : Self) → IsLawful (meaning p) (fits p) };
}
