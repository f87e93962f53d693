ghost use Rattle.std.specs.Prelude.{◌≡◌, ◌∷◌, ◌++◌, ◌-◌, ◌<◌, ◌^◌, [], IsTrue, IfErr, IfOk};
ghost use Rattle.release_taps.specs.Seats.{IsFresh};
ghost use Rattle.world_io.specs.Stream.{Rose};
ghost use Rattle.world_io.specs.World.{is_writable};
ghost use Rattle.world_told.specs.Ledgers.{told_ledger};
ghost use Rattle.world_told.specs.Sent.{name_of, sent_to};

use crate::{Call, Refused, Told, ToldTap};
use plain_text::Text;
use release_taps::{Shown, Tap};
use world_io::{OpenFault, Put, World};

impl<W: World + Drop> ToldTap<W> {
    /// Makes the bytes under the name empty, and a tap that will write them. It was shown nothing yet.
    /// Where the file is not created, the world is given back.
    #[tactic(auto, using(crate::proofs::Sending::name_created, crate::proofs::Sending::sent_created))]
    pub fn create(world: W, name: &Text) -> Result<ToldTap<W>, Refused<W>>
        requires { (W.ledger world).given < 2 ^ 32 - 1 }
        ensures created { IfOk result
            (λ tap. tap.world.calls ≡ (Call.Created tap.file, name.now) ∷ []) }
        ensures label { IfOk result (λ tap. name_of tap.file tap.world.calls ≡ name.now) }
        ensures fresh { IfOk result
            (λ tap. IsFresh (λ t. (t.faults ≡ 0) × (t.lacks ≡ 0))
            (λ t. sent_to t.file t.world.calls) (λ t. t.faults) (λ t. t.lacks) tap) }
        ensures cause { IfErr result (λ refused. refused.fault ≡ OpenFault.Failed
            → Rose (W.ledger world).write_faults (W.ledger refused.world).write_faults) }
    {
        let mut told = Told::of(world);
        match told.create_file(name) {
            Ok(file) => Ok(ToldTap {
                world: told,
                file,
                faults: 0,
                lacks: 0,
            }),
            Err(fault) => Err(Refused {
                fault,
                world: told.into_inner(),
            }),
        }
    }
}

/// Appends the bytes to a file of this number, as far as the world takes them.
fn write_piece<W: World>(world: &mut Told<W>, file: u32, piece: &[u8]) -> Shown
    requires { IsTrue (is_writable (told_ledger W.ledger world.old) file) }
    ensures writable { IsTrue (is_writable (told_ledger W.ledger world.new) file) }
    ensures name { name_of file world.new.calls ≡ name_of file world.old.calls }
    ensures took { result ≡ Shown.Took
        → sent_to file world.new.calls ≡ sent_to file world.old.calls ++ piece.now }
{
    let mut done = 0;
    while done < piece.len() {
        match world.put(file, &piece[done..]) {
            Put::Took(count) => done += count,
            Put::Failed => return Shown::Failed,
            Put::NoMemory => return Shown::NoMemory,
        }
    }
    Shown::Took
}

impl<W: World + Drop> Tap for ToldTap<W> {
    ghost use Rattle.std.specs.Prelude.{◌≡◌};
    ghost use Rattle.world_told.specs.Sent.{name_of, sent_to};

    ghost tells = { λ t. (t.faults ≡ 0) × (t.lacks ≡ 0) };

    ghost seen = { λ t. sent_to t.file t.world.calls };

    ghost fault_count = { λ t. t.faults };

    ghost lack_count = { λ t. t.lacks };

    ghost label = { λ t. name_of t.file t.world.calls };

    fn show(&mut self, piece: &[u8]) -> Shown {
        let shown = write_piece(&mut self.world, self.file, piece);
        match shown {
            Shown::Took => {}
            Shown::Failed => self.faults = self.faults.saturating_add(1),
            Shown::NoMemory => self.lacks = self.lacks.saturating_add(1),
        }
        shown
    }

    fn faults(&self) -> u64 {
        self.faults
    }

    fn lacks(&self) -> u64 {
        self.lacks
    }
}
