ghost use Rattle.std.specs.Prelude.{◌≡◌, ◌<◌, ◌-◌, ◌^◌, [], IsTrue, length, IfOk, OnErr};
ghost use Rattle.std.specs.Prelude.{IsErrOf, None, true};
ghost use Rattle.world_io.specs.Stream.{Rose, FillCount, filled_bytes, PutCount};
ghost use Rattle.world_io.specs.Stream.{put_bytes};
ghost use Rattle.world_io.specs.World.{Start, Shown, Ledger, KeepsLedgerReading};
ghost use Rattle.world_io.specs.World.{KeepsLedgerWriting};
ghost use Rattle.world_io.specs.World.{ReadsOn, WritesOn, ReadingFailed, WritingFailed};
ghost use Rattle.world_io.specs.World.{GivesOpened, GivesCreated, OpensFile, ReadsFile};
ghost use Rattle.world_io.specs.World.{CreatesFile, CreatesNothing, WritesFile, FilledNothing};
ghost use Rattle.world_io.specs.World.{PutNothing, is_writable};

use crate::{Filled, Put};
use plain_text::{NoMemory, Text};

/// Why a file was not opened or not created.
#[derive(Clone, Copy, Debug, PartialEq, Eq)]
pub enum OpenFault {
    /// The outside refused it, and a count of faults rose.
    Failed,
    NoMemory,
}

impl From<NoMemory> for OpenFault {
    ghost use Rattle.std.specs.Prelude.{◌≡◌};
    ghost use Rattle.world_io.specs.declared.world.OpenFault.TheVariants as fault;

    ghost from_gives = { λ _ r. r ≡ fault.NoMemory };

    fn from(_: NoMemory) -> Self {
        OpenFault::NoMemory
    }
}

/// The outside: named files, and the report, which is file 0 and is always there.
///
/// It shows which numbers it gave to files that it opened and created, of which files it found the
/// end, the names of those that it opened, in order, whether its calls came in an order for which
/// a beginning can be found, and how often reading and writing failed. A count that stands at
/// 2^64 - 1 stays there.
///
/// Its bytes are known by a beginning, where its answers are honest: where each is that of files
/// which held these bytes at first. So something is known of the real files, whose bytes no
/// contract can name: whatever they held, if they answer as files do.
///
/// A world may say that it is healthy: then no call fails, but for opening a name that is not
/// there, and it stays healthy. The world of the real files never says so.
pub trait World {
    /// That each answer so far is that of files which held these bytes at the beginning.
    ghost honest: { Start → Self → Type 0 };

    /// The bytes, by this beginning, where all answers are honest.
    ghost shows: { Start → Self → Shown };

    /// The numbers that it gave, and the counts of its faults.
    ghost ledger: { Self → Ledger };

    /// That no call fails from here on, but for opening a name that is not there.
    ghost healthy: { Self → Type 0 };

    /// Starts reading a name at its first byte. The file has a number of its own, which is not 0.
    fn open_file(&mut self, name: &Text) -> Result<u32, OpenFault>
        requires { (ledger self.old).given < 2 ^ 32 - 1 }
        ensures given { IfOk result
            (λ file. GivesOpened name.now file (ledger self.old) (ledger self.new)) }
        ensures not_given { OnErr result (KeepsLedgerReading (ledger self.old) (ledger self.new)) }
        ensures cause { IsErrOf result OpenFault.Failed
            → Rose (ledger self.old).read_faults (ledger self.new).read_faults }
        ensures stays_healthy { healthy self.old → healthy self.new }
        ensures shows { (p : Start) → honest p self.new
            → IfOk result (λ file. OpensFile name.now file (shows p self.old) (shows p self.new)) }
        ensures shows_err { (p : Start) → honest p self.new
            → OnErr result (shows p self.new ≡ shows p self.old) }
        ensures missing { healthy self.old → (p : Start) → honest p self.new
            → IsErrOf result OpenFault.Failed → (shows p self.old).names name.now ≡ None }
        ensures before { (p : Start) → honest p self.new → honest p self.old };

    /// Takes the next bytes of an opened file into the piece, from its first byte on. Once it found
    /// the end of the file, it gives nothing more of it.
    fn fill(&mut self, file: u32, piece: &mut [u8]) -> Filled
        requires { IsTrue ((ledger self.old).opened file) }
        ensures count { FillCount result (length piece.old) }
        ensures reads_on { ReadsOn ledger healthy self.old self.new }
        ensures cause { result ≡ Filled.Failed → ReadingFailed ledger healthy self.old self.new }
        ensures shows { (p : Start) → honest p self.new
            → ReadsFile file (filled_bytes result piece.new) (shows p self.old) (shows p self.new) }
        ensures shows_nothing { (p : Start) → honest p self.new
            → FilledNothing result → shows p self.new ≡ shows p self.old }
        ensures ends { (p : Start) → honest p self.new
            → result ≡ Filled.End → (shows p self.old).left file ≡ [] }
        ensures end_found { result ≡ Filled.End → (ledger self.new).ended file ≡ true }
        ensures nothing_more { (ledger self.old).ended file ≡ true → FilledNothing result }
        ensures before { (p : Start) → honest p self.new → honest p self.old };

    /// Makes the name's bytes empty, and starts writing them. The file has a number of its own,
    /// which is not 0.
    fn create_file(&mut self, name: &Text) -> Result<u32, OpenFault>
        requires { (ledger self.old).given < 2 ^ 32 - 1 }
        ensures given { IfOk result
            (λ file. GivesCreated file (ledger self.old) (ledger self.new)) }
        ensures not_given { OnErr result (KeepsLedgerWriting (ledger self.old) (ledger self.new)) }
        ensures cause { IsErrOf result OpenFault.Failed
            → WritingFailed ledger healthy self.old self.new }
        ensures stays_healthy { healthy self.old → healthy self.new }
        ensures shows { (p : Start) → honest p self.new
            → IfOk result (λ file. CreatesFile name.now file (shows p self.old) (shows p self.new)) }
        ensures shows_err { (p : Start) → honest p self.new
            → OnErr result (CreatesNothing name.now (shows p self.old) (shows p self.new)) }
        ensures before { (p : Start) → honest p self.new → honest p self.old };

    /// Appends the first bytes of the piece to a created file, or to the report.
    fn put(&mut self, file: u32, piece: &[u8]) -> Put
        requires { IsTrue (is_writable (ledger self.old) file) }
        ensures count { PutCount result (length piece.now) }
        ensures writes_on { WritesOn ledger healthy self.old self.new }
        ensures cause { result ≡ Put.Failed → WritingFailed ledger healthy self.old self.new }
        ensures shows { (p : Start) → honest p self.new
            → WritesFile file (put_bytes result piece.now) (shows p self.old) (shows p self.new) }
        ensures shows_nothing { (p : Start) → honest p self.new
            → PutNothing result → shows p self.new ≡ shows p self.old }
        ensures before { (p : Start) → honest p self.new → honest p self.old };
}
