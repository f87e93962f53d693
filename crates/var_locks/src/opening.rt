//! How a round begins.
ghost use Rattle.std.specs.Prelude.{◌≡◌, ℕ, ◌<◌, ◌≤◌, ◌^◌, ◌*◌, [], length, slice_index, IfOk};
ghost use Rattle.box_program.specs.Hands.{FitsProgram};
ghost use Rattle.master_core.specs.Mastered.{master_of, value_of};
ghost use Rattle.var_locks.specs.Codes.{master_code};
ghost use Rattle.var_locks.specs.Rounds.{IsRoundOf, AreVarsOf, Opens};
ghost use Rattle.var_locks.specs.Openings.{AreCounted, places_of, words_of, rest_view, fresh_seat};
ghost use Rattle.var_locks.specs.Openings.{fresh_seats};

use crate::lines::push_line;
use crate::seats::VarSeat;
use crate::spaced::slots_of;
use crate::steps::{Lock, Token, open_round, split_off};
use crate::vars::Vars;
use crate::view::Round;
use box_program::Program;
use master_core::{Master, MasterParts, ThreadPart, VarPart};
use plain_text::NoMemory;
use replay_guide::Guide;
use std::alloc::Global;

/// How often each variable was touched.
#[tactic(auto, using(crate::proofs::Freshness::places_next))]
fn first_places<V>(alloc: Global, vars: &[VarPart<V>]) -> Result<Vec<u64>, NoMemory>
    ensures { IfOk result (λ places. places.items ≡ places_of vars.now) }
{
    let mut places = Vec::new(alloc);
    for var in 0..vars.len() {
        places.push(vars[var].places)?;
    }
    Ok(places)
}

/// The words at first: of each variable twice its places, and 0 of each thread, each on a line of its own.
#[tactic(auto, using(crate::proofs::FirstWords::words_next, crate::proofs::FirstWords::zeros_next))]
fn first_words(alloc: Global, places: &[u64], threads: usize) -> Result<Vec<u64>, NoMemory>
    requires small { (v : ℕ) → slice_index places.now v ≤ 2 ^ 60 }
    ensures { IfOk result (λ words. words.items ≡ words_of places.now threads) }
{
    let mut words = Vec::new(alloc);
    for var in 0..places.len() {
        push_line(&mut words, places[var] * 2)?;
    }
    for thread in 0..threads {
        let _ = thread;
        push_line(&mut words, 0)?;
    }
    Ok(words)
}

/// A seat of its own for each thread of the first seat.
pub(crate) fn seat_all<P: Program, J: Round>(
    alloc: Global,
    program: &P,
    shared: &Lock<P, J>,
    token: &mut Token<P::Value>,
    parts: &[ThreadPart],
    places: &[u64],
) -> Result<Vec<VarSeat<P>>, NoMemory>
    requires of { IsRoundOf P.meaning P.row.coded P.Value.row.coded
        J.program J.opening J.threads program.now shared.now.table_id.words }
    requires words { 0 < shared.now.table_id.words }
    requires table { token.old.table_id ≡ shared.now.table_id }
    requires few { length parts.now ≤ 16 }
    requires counted { AreCounted parts.now }
    requires first { token.old.me ≡ (rest_view 0 parts.now places.now, []) }
    ensures { IfOk result (λ seats.
        seats.items ≡ fresh_seats shared.now.table_id places.now 0 parts.now) }
{
    let mut seats = Vec::new(alloc);
    for thread in 0..parts.len() {
        let own = split_off::<P, J>(program, shared, token);
        let seen = Vec::from_slice(alloc, places)?;
        seats.push(VarSeat::fresh(alloc, own, thread as u32, parts[thread], seen))?;
    }
    Ok(seats)
}

/// The round whose words and places are these.
fn begin<P: Program, J: Round>(
    alloc: Global,
    program: &P,
    vars: usize,
    parts: MasterParts<P>,
    places: &[u64],
    words: &[u64],
) -> Result<(Vars<P, J>, Vec<VarSeat<P>>), NoMemory>
    requires of { P.row.coded.code program.now ≡ J.program }
    requires vars { (vars ≡ (P.meaning program.now).vars) × (vars < 2 ^ 32) }
    requires opens { Opens (P.meaning program.now) (P.fits program.now) P.Value.row.coded
        J.opening J.threads J.places parts.vars.items words.now
        (master_of parts.vars.items parts.threads.items) }
    requires places { places.now ≡ J.places }
    requires some { 0 < length parts.threads.items }
    ensures vars { IfOk result (λ r.
        AreVarsOf P.meaning P.row.coded P.Value.row.coded program.now r.0) }
    ensures program { IfOk result (λ r. r.0.program ≡ J.program) }
    ensures opening { IfOk result (λ r. r.0.opening ≡ J.opening) }
    ensures threads { IfOk result (λ r. r.0.parts ≡ J.threads) }
    ensures seats { IfOk result (λ r. r.1.items ≡ fresh_seats r.0.round J.places 0 J.threads) }
{
    let MasterParts {
        vars: values,
        threads,
    } = parts;
    let slots = slots_of(alloc, values)?;
    let Ok((table, mut token)) = open_round::<P, J>(alloc, program, words, slots) else {
        return Err(NoMemory);
    };
    let seats = seat_all::<P, J>(alloc, program, &table.shared, &mut token, &threads, places)?;
    let threads = threads.len();
    Ok((
        Vars {
            table,
            vars,
            threads,
        },
        seats,
    ))
}

impl<P: Program, J: Round> Vars<P, J> {
    /// The variables of a round that begins with this master, and a seat for each of its threads, by number.
    pub fn of(
        alloc: Global,
        program: &P,
        master: Master<P>,
        guide: &Guide,
    ) -> Result<(Self, Vec<VarSeat<P>>), NoMemory>
        requires program { P.row.coded.code program.now ≡ J.program }
        requires master { (master_code P.Value.row.coded).code master ≡ J.opening }
        requires threads { master.threads ≡ J.threads }
        requires places { places_of master.vars ≡ J.places }
        requires guide { guide.now ≡ J.guide }
        requires fits { FitsProgram (P.meaning program.now) (P.fits program.now)
            value_of master.vars }
        requires some { 0 < length master.threads }
        ensures vars { IfOk result (λ r.
            AreVarsOf P.meaning P.row.coded P.Value.row.coded program.now r.0) }
        ensures program { IfOk result (λ r. r.0.program ≡ J.program) }
        ensures opening { IfOk result (λ r. r.0.opening ≡ J.opening) }
        ensures threads { IfOk result (λ r. r.0.parts ≡ J.threads) }
        ensures seats { IfOk result (λ r.
            r.1.items ≡ fresh_seats r.0.round J.places 0 J.threads) }
    {
        let _ = guide;
        let parts = master.split();
        let places = first_places(alloc, &parts.vars)?;
        let words = first_words(alloc, &places, parts.threads.len())?;
        let vars = program.vars() as usize;
        begin(alloc, program, vars, parts, &places, &words)
    }
}
