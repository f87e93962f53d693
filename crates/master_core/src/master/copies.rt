ghost use Rattle.std.specs.Prelude.{◌≡◌, ◌↔◌, ℕ, ◌<◌, ◌≤◌, IsTrue, IsSome, IfOk, length};
ghost use Rattle.std.specs.Prelude.{HoldsAt};
ghost use Rattle.box_program.specs.Hands.{FitsProgram};
ghost use Rattle.master_core.specs.Mastered.{value_of};
ghost use Rattle.master_core.specs.Deltas.{changed_part, changed_parts, applied_part};
ghost use Rattle.master_core.specs.Deltas.{applied_parts, delta_of, applied, HasCounts, HasTouched};
ghost use Rattle.master_core.specs.Deltas.{LeadsOn, StandsAfter};

use super::Master;
use crate::{ThreadPart, VarPart};
use box_program::Program;
use plain_text::NoMemory;
use std::alloc::Global;
use std::marker::Model;
use thread_clock::{EntryCounts, THREADS};

/// What changed in a master since an earlier moment of it: the parts that its variables and its threads have now.
///
/// Of a variable that was not touched since then the value is left out. How often a variable was touched, and its
/// stamps, are there for each one, since a read changes those of the readers and no value.
#[derive(Drop)]
pub struct Delta<P: Program> {
    vars: Vec<VarPart<Option<P::Value>>>,
    threads: Vec<ThreadPart>,
}

impl<P: Program> Model for Delta<P> {
    ghost use Rattle.std.specs.Prelude.{Option};
    ghost use Rattle.master_core.specs.Mastered.{Mastered, IsBounded};

    ghost Value = { Mastered (Option P.Value) };

    ghost view = { λ d. record { vars = d.vars.items; threads = d.threads.items } };

    ghost invariant = { λ d. IsBounded d.vars.items d.threads.items };
}

impl<P: Program> Delta<P> {
    /// Whether it has the value of this variable: exactly where the variable was touched since the earlier moment.
    pub fn has(&self, var: u32) -> bool
        requires { var < length self.now.vars }
        ensures { HoldsAt (λ part. IsTrue result ↔ IsSome part.value) self.now.vars var }
    {
        self.vars[var as usize].value.is_some()
    }
}

impl<P: Program> Master<P> {
    /// A copy, which stands for the same moves.
    pub fn copy(&self, alloc: Global, program: &P) -> Result<Master<P>, NoMemory>
        requires { FitsProgram (P.meaning program.now) (P.fits program.now)
            value_of self.now.vars }
        ensures { IfOk result (λ copy. copy ≡ self.now) }
    {
        Ok(Master {
            vars: copied_vars(alloc, program, &self.vars)?,
            threads: Vec::from_slice(alloc, &self.threads)?,
        })
    }

    /// What changed since the master was as `base` is. It copies the values of the variables that were touched since
    /// then, and no other.
    pub fn delta(&self, alloc: Global, program: &P, base: &Master<P>) -> Result<Delta<P>, NoMemory>
        requires program { FitsProgram (P.meaning program.now) (P.fits program.now)
            value_of self.now.vars }
        requires base { length base.now.vars ≡ length self.now.vars }
        ensures delta { IfOk result (λ delta. delta ≡ delta_of base.now self.now) }
        ensures vars { IfOk result (λ delta. length delta.vars ≡ length self.now.vars) }
        ensures touched { IfOk result (λ delta. HasTouched base.now self.now delta) }

        // Where `base` stands for an earlier moment of this master's moves.
        ensures leads { IfOk result (λ delta.
            LeadsOn (P.meaning program.now) base.now self.now delta) }
    {
        Ok(Delta {
            vars: changed_vars(alloc, program, &base.vars, &self.vars)?,
            threads: Vec::from_slice(alloc, &self.threads)?,
        })
    }

    /// Changes the master as the delta says: where it stands for the moment from which the delta leads, it stands for
    /// the one to which it leads. It takes no memory.
    pub fn apply(&mut self, delta: Delta<P>)
        requires { length delta.vars ≡ length self.old.vars }
        ensures applied { self.new ≡ applied self.old delta }
        ensures stands { StandsAfter self.old delta self.new }
    {
        let Delta { mut vars, threads } = delta;
        apply_vars(&mut self.vars, &mut vars);
        self.threads = threads;
    }

    /// How many entries each thread logged.
    pub fn entry_counts(&self) -> EntryCounts
        ensures { HasCounts self.now.threads result }
    {
        counts_of(&self.threads)
    }
}

/// The counts of entries of these threads.
fn counts_of(threads: &[ThreadPart]) -> EntryCounts
    requires { length threads.now ≤ 16 }
    ensures { HasCounts threads.now result }
{
    let mut components = [0; THREADS];
    for (thread, part) in threads.iter().enumerate() {
        components[thread] = part.counts.entries;
    }
    EntryCounts::new(components)
}

/// A copy of one variable's part.
fn copied_var<P: Program>(
    alloc: Global,
    program: &P,
    var: u32,
    part: &VarPart<P::Value>,
) -> Result<VarPart<P::Value>, NoMemory>
    requires { P.fits program.now var part.now.value }
    ensures { IfOk result (λ copy. copy ≡ part.now) }
{
    Ok(VarPart {
        value: program.copy_value(alloc, var, &part.value)?,
        places: part.places,
        stamp: part.stamp,
        readers: part.readers,
    })
}

/// A copy of the parts of a program's variables.
fn copied_vars<P: Program>(
    alloc: Global,
    program: &P,
    parts: &[VarPart<P::Value>],
) -> Result<Vec<VarPart<P::Value>>, NoMemory>
    requires { FitsProgram (P.meaning program.now) (P.fits program.now) value_of parts.now }
    ensures { IfOk result (λ copies. copies.items ≡ parts.now) }
{
    let mut copies = Vec::with_capacity(alloc, parts.len())?;
    for var in 0..program.vars() {
        copies.push(copied_var(alloc, program, var, &parts[var as usize])?)?;
    }
    Ok(copies)
}

/// One variable's part, with its value where it was touched since its part was `base`.
fn changed_var<P: Program>(
    alloc: Global,
    program: &P,
    var: u32,
    base: &VarPart<P::Value>,
    now: &VarPart<P::Value>,
) -> Result<VarPart<Option<P::Value>>, NoMemory>
    requires { P.fits program.now var now.now.value }
    ensures { IfOk result (λ change. change ≡ changed_part base.now now.now) }
{
    let value = if base.places == now.places {
        None
    } else {
        Some(program.copy_value(alloc, var, &now.value)?)
    };
    Ok(VarPart {
        value,
        places: now.places,
        stamp: now.stamp,
        readers: now.readers,
    })
}

/// What changed of a program's variables since their parts were these.
fn changed_vars<P: Program>(
    alloc: Global,
    program: &P,
    base: &[VarPart<P::Value>],
    now: &[VarPart<P::Value>],
) -> Result<Vec<VarPart<Option<P::Value>>>, NoMemory>
    requires program { FitsProgram (P.meaning program.now) (P.fits program.now) value_of now.now }
    requires base { length base.now ≡ length now.now }
    ensures { IfOk result (λ changes. changes.items ≡ changed_parts base.now now.now) }
{
    let mut changes = Vec::with_capacity(alloc, now.len())?;
    for var in 0..program.vars() {
        let at = var as usize;
        changes.push(changed_var(alloc, program, var, &base[at], &now[at])?)?;
    }
    Ok(changes)
}

/// Changes one variable's part. Its value is moved out of the change.
fn apply_var<V: Drop>(part: &mut VarPart<V>, change: &mut VarPart<Option<V>>)
    ensures { part.new ≡ applied_part part.old change.old }
{
    if let Some(value) = change.value.take() {
        part.value = value;
    }
    part.places = change.places;
    part.stamp = change.stamp;
    part.readers = change.readers;
}

/// Changes the parts of all variables.
fn apply_vars<V: Drop>(parts: &mut Vec<VarPart<V>>, changes: &mut Vec<VarPart<Option<V>>>)
    requires { length changes.old.items ≡ length parts.old.items }
    ensures { parts.new.items ≡ applied_parts parts.old.items changes.old.items }
{
    for var in 0..parts.len() {
        apply_var(&mut parts[var], &mut changes[var]);
    }
}
