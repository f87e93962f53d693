ghost use Rattle.std.specs.Prelude.{◌≡◌};

use crate::{Goes, NatBox, NatValue, Noted, Place};
use box_program::{Local, Move, Program};
use flow_boxes::Drops;
use plain_text::{Bytes, NoMemory, Text};
use std::alloc::Global;

impl Program for NatBox {
    ghost use Rattle.std.specs.Prelude.{◌≡◌, ◌≤◌};
    ghost use Rattle.nat_box.specs.Nat.{Fits};
    ghost use Rattle.nat_box.specs.Boxes.{box_meaning, box_lawful};

    type Value = NatValue;

    ghost meaning = { box_meaning };

    ghost fits = { λ b. Fits b.settings };

    ghost lawful = { box_lawful };

    fn vars(&self) -> u32 {
        2 + 2 * self.settings.shards
    }

    fn fresh(&self, alloc: Global, var: u32) -> Result<NatValue, NoMemory> {
        if var == 0 {
            Ok(NatValue::Dropped(Drops::new()))
        } else if var == 1 {
            Ok(NatValue::Free(self.fresh_pool(alloc)?))
        } else if var < 2 + self.settings.shards {
            Ok(NatValue::Mapped(self.fresh_mappings(alloc, var)?))
        } else {
            Ok(NatValue::Taken(self.fresh_bound(alloc, var)?))
        }
    }

    fn begin(&self, frame: &[u8], original: u32) -> Local {
        self.begun(self.seen(frame, original)).local()
    }

    fn next(&self, local: &Local) -> Move {
        let noted = Noted::read_from(local);
        match Place::numbered(local.at) {
            Place::HearsTime => Move::Clock,
            Place::FindsMapping | Place::FindsOrBinds => {
                Move::Access(self.forward_table(&noted.source))
            }
            Place::UnbindsFreed | Place::UnbindsLost => {
                Move::Access(self.reverse_table(&noted.freed))
            }
            Place::GivesBackFreed | Place::ReservesPort | Place::GivesBackLost => Move::Access(1),
            Place::DrawsWord => Move::Draw,
            Place::BindsPort => Move::Access(self.reverse_table(&noted.source_key())),
            Place::FindsEndpoint => Move::Read(self.reverse_table(&noted.dest_key())),
            Place::AsksIfLives => Move::Read(self.forward_table(&noted.target)),
            Place::FindsPort => Move::Read(self.forward_table(&noted.source)),
            Place::CountsDrop => Move::Access(0),
            Place::SendsOut => Move::Emit,
            Place::Ends => Move::End,
        }
    }

    fn touch(
        &self,
        _alloc: Global,
        _var: u32,
        value: &mut NatValue,
        local: &mut Local,
    ) -> Result<(), NoMemory> {
        let place = Place::numbered(local.at);
        let noted = Noted::read_from(local);
        let goes = match value {
            NatValue::Dropped(drops) => noted.touch_drops(place, drops),
            NatValue::Free(pool) => noted.touch_pool(self.settings.limit, place, pool),
            NatValue::Mapped(table) => {
                let goes = noted.touch_mappings(self.settings.limit, place, table)?;
                self.follow(&noted, table);
                goes
            }
            NatValue::Taken(table) => noted.touch_bound(place, table)?,
        };
        *local = goes.local();
        Ok(())
    }

    fn look(&self, _var: u32, value: &NatValue, local: &mut Local) {
        let place = Place::numbered(local.at);
        let noted = Noted::read_from(local);
        let goes = match value {
            NatValue::Mapped(table) => noted.look_at_mappings(place, table),
            NatValue::Taken(table) => noted.look_at_bound(place, table),
            NatValue::Dropped(_) | NatValue::Free(_) => Goes::to(Place::Ends, noted),
        };
        *local = goes.local();
    }

    fn told(&self, answer: u64, local: &mut Local) {
        let place = Place::numbered(local.at);
        *local = Noted::read_from(local).told(place, answer).local();
    }

    fn emitted(&self, local: &mut Local) {
        *local = Goes::to(Place::Ends, Noted::read_from(local)).local();
    }

    fn packet_out(
        &self,
        alloc: Global,
        frame: &[u8],
        original: u32,
        local: &Local,
    ) -> Result<Bytes, NoMemory> {
        let seen = self.seen(frame, original);
        self.sent(alloc, frame, seen, &Noted::read_from(local))
    }

    fn copy_value(
        &self,
        _alloc: Global,
        _var: u32,
        value: &NatValue,
    ) -> Result<NatValue, NoMemory> {
        match value {
            NatValue::Dropped(drops) => Ok(NatValue::Dropped(*drops)),
            NatValue::Free(pool) => Ok(NatValue::Free(pool.copy()?)),
            NatValue::Mapped(table) => Ok(NatValue::Mapped(table.copy()?)),
            NatValue::Taken(table) => Ok(NatValue::Taken(table.copy()?)),
        }
    }

    fn show(&self, alloc: Global, _var: u32, value: &NatValue) -> Result<Text, NoMemory> {
        match value {
            NatValue::Dropped(drops) => drops.text(alloc),
            NatValue::Free(pool) => pool.text(alloc),
            NatValue::Mapped(table) => table.text(alloc),
            NatValue::Taken(table) => table.text(alloc),
        }
    }
}
