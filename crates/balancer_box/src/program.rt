ghost use Rattle.std.specs.Prelude.{◌≡◌};
ghost use Rattle.balancer_box.specs.Balancer.{noted_by};

use crate::{BalancerBox, BalancerValue, Connections, Goes, Loads, Noted, Place};
use box_program::{Local, Move, Program};
use flow_boxes::Drops;
use packet_headers::view;
use plain_text::{Bytes, NoMemory, Text};
use std::alloc::Global;

impl BalancerBox {
    /// What a Local has noted.
    fn noted(&self, local: &Local) -> Noted
        ensures { result ≡ noted_by self.now.settings local.now }
    {
        Noted::read_from(local, self.backend_count())
    }
}

impl Program for BalancerBox {
    ghost use Rattle.std.specs.Prelude.{◌≡◌, ◌≤◌};
    ghost use Rattle.balancer_box.specs.Balancer.{Fits};
    ghost use Rattle.balancer_box.specs.Boxes.{box_meaning, box_lawful};

    type Value = BalancerValue;

    ghost meaning = { box_meaning };

    ghost fits = { λ b. Fits b.settings };

    ghost lawful = { box_lawful };

    fn vars(&self) -> u32 {
        2 + self.settings.shards
    }

    fn fresh(&self, alloc: Global, var: u32) -> Result<BalancerValue, NoMemory> {
        if var == 0 {
            Ok(BalancerValue::Dropped(Drops::new()))
        } else if var == 1 {
            Ok(BalancerValue::Loaded(Loads::new(alloc, self.settings.backends.len())?))
        } else {
            Ok(BalancerValue::Connected(Connections::new(alloc)))
        }
    }

    fn begin(&self, frame: &[u8], original: u32) -> Local {
        self.begun(view(frame, original)).local()
    }

    fn next(&self, local: &Local) -> Move {
        match Place::numbered(local.at) {
            Place::HearsTime => Move::Clock,
            Place::FindsConnection | Place::Connects | Place::ChecksConnection => {
                Move::Access(self.table_of(&self.noted(local).client))
            }
            Place::LowersIdle | Place::RaisesLeast | Place::LowersSpare | Place::LowersVain => {
                Move::Access(1)
            }
            Place::CountsDrop => Move::Access(0),
            Place::SendsOut => Move::Emit,
            Place::Ends => Move::End,
        }
    }

    fn touch(
        &self,
        _alloc: Global,
        _var: u32,
        value: &mut BalancerValue,
        local: &mut Local,
    ) -> Result<(), NoMemory> {
        let place = Place::numbered(local.at);
        let noted = self.noted(local);
        let goes = match value {
            BalancerValue::Dropped(drops) => noted.touch_drops(place, drops),
            BalancerValue::Loaded(loads) => noted.touch_loads(place, loads),
            BalancerValue::Connected(table) => {
                noted.touch_connections(self.settings.closing, place, table)?
            }
        };
        *local = goes.local();
        Ok(())
    }

    fn look(&self, _var: u32, _value: &BalancerValue, local: &mut Local) {
        *local = Goes::to(Place::Ends, self.noted(local)).local();
    }

    fn told(&self, answer: u64, local: &mut Local) {
        let place = Place::numbered(local.at);
        *local = self.noted(local).told(place, answer).local();
    }

    fn emitted(&self, local: &mut Local) {
        *local = Goes::to(Place::Ends, self.noted(local)).local();
    }

    fn packet_out(
        &self,
        alloc: Global,
        frame: &[u8],
        original: u32,
        local: &Local,
    ) -> Result<Bytes, NoMemory> {
        let seen = view(frame, original);
        self.sent(alloc, frame, seen, &self.noted(local))
    }

    fn copy_value(
        &self,
        _alloc: Global,
        _var: u32,
        value: &BalancerValue,
    ) -> Result<BalancerValue, NoMemory> {
        match value {
            BalancerValue::Dropped(drops) => Ok(BalancerValue::Dropped(*drops)),
            BalancerValue::Loaded(loads) => Ok(BalancerValue::Loaded(loads.copy()?)),
            BalancerValue::Connected(table) => Ok(BalancerValue::Connected(table.copy()?)),
        }
    }

    fn show(&self, alloc: Global, _var: u32, value: &BalancerValue) -> Result<Text, NoMemory> {
        match value {
            BalancerValue::Dropped(drops) => drops.text(alloc),
            BalancerValue::Loaded(loads) => loads.text(alloc),
            BalancerValue::Connected(table) => table.text(alloc),
        }
    }
}
