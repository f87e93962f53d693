ghost use Rattle.std.specs.Prelude.{◌≡◌, IfOk};
ghost use Rattle.master_core.specs.declared.step.Stepped.TheVariants as stepped_is;
ghost use Rattle.wire_frames.specs.declared.frame.Frame.{Frame as FrameValue};
ghost use Rattle.wire_frames.specs.Layout.{IsFrame};
ghost use Rattle.wire_frames.specs.Writing.{CanPutEntry, CanPutOutput};
ghost use Rattle.kept_moves.specs.Keeping.{IsFor, shown, shown_by};

use crate::checks::{can_put_entry, can_put_output};
use crate::form::Form;
use access_log::{Output, StampedEntry};
use master_core::Stepped;
use plain_text::NoMemory;
use std::alloc::Global;
use std::boxed::Box;
use std::marker::Model;
use wire_frames::{Frame, FrameEntry, FrameError, FrameOutput, put_entry, put_output, take_frame};

/// What a thread's move left, kept until it is noted. Contracts see what its call showed.
///
/// An entry or an output is kept as its frame, which says an epoch and a number of threads.
#[derive(Drop)]
pub struct KeptMove {
    epoch: u32,
    threads: u32,
    form: Form,
}

impl Model for KeptMove {
    ghost use Rattle.master_core.specs.declared.step.Stepped.{Stepped};
    ghost use Rattle.kept_moves.specs.Keeping.{IsFor, shown};

    ghost Value = { Stepped };

    ghost view = { λ k. shown k.form };

    ghost invariant = { λ k. IsFor k.epoch k.threads k.form };
}

/// An entry, kept as its frame.
fn kept_entry(
    alloc: Global,
    epoch: u32,
    threads: u32,
    entry: &StampedEntry,
) -> Result<Form, NoMemory>
    requires can { CanPutEntry epoch threads entry.now }
    ensures shown { IfOk result (λ form. shown form ≡ stepped_is.Did entry.now) }
    ensures frame { IfOk result (IsFor epoch threads) }
{
    Ok(Form::Logged {
        thread: entry.thread,
        number: entry.number,
        what: entry.what,
        frame: put_entry(alloc, epoch, threads, entry)?,
    })
}

/// An output, kept as its frame.
fn kept_output(alloc: Global, epoch: u32, threads: u32, output: Output) -> Result<Form, NoMemory>
    requires can { CanPutOutput epoch threads output }
    ensures shown { IfOk result (λ form. shown form ≡ stepped_is.Emitted output) }
    ensures frame { IfOk result (IsFor epoch threads) }
{
    let (thread, number) = (output.thread, output.number);
    let captured = output.packet.bytes.len() as u64;
    Ok(Form::Sent {
        thread,
        number,
        captured,
        frame: put_output(alloc, epoch, threads, output)?,
    })
}

/// A move, kept as a frame where it has one.
fn kept_form(alloc: Global, epoch: u32, threads: u32, stepped: Stepped) -> Result<Form, NoMemory>
    ensures shown { IfOk result (λ form. shown form ≡ stepped) }
    ensures frame { IfOk result (IsFor epoch threads) }
{
    match stepped {
        Stepped::Took(k) => Ok(Form::Took(k)),
        Stepped::Ended(k) => Ok(Form::Ended(k)),
        Stepped::Did(entry) => {
            if can_put_entry(epoch, threads, &entry) {
                kept_entry(alloc, epoch, threads, &entry)
            } else {
                Ok(Form::Whole(Box::new(alloc, Stepped::Did(entry))?))
            }
        }
        Stepped::Emitted(output) => {
            if can_put_output(epoch, threads, &output) {
                kept_output(alloc, epoch, threads, output)
            } else {
                Ok(Form::Whole(Box::new(alloc, Stepped::Emitted(output))?))
            }
        }
        other => Ok(Form::Whole(Box::new(alloc, other)?)),
    }
}

/// The move that made this entry. It answers that memory ran out where a component of the stamp is 2^32 or more, as in
/// no frame that was written.
fn did(entry: &FrameEntry) -> Result<Stepped, NoMemory>
    ensures { IfOk result (λ told. told ≡ stepped_is.Did entry.now) }
{
    match entry.entry() {
        Some(entry) => Ok(Stepped::Did(entry)),
        None => Err(NoMemory),
    }
}

/// The move that sent this output out. It answers that memory ran out as `did` does.
fn emitted(output: FrameOutput) -> Result<Stepped, NoMemory>
    ensures { IfOk result (λ told. told ≡ stepped_is.Emitted output) }
{
    match output.into_output() {
        Some(output) => Ok(Stepped::Emitted(output)),
        None => Err(NoMemory),
    }
}

/// What the frame in these bytes tells, as the call of its move showed it.
fn told_in(alloc: Global, bytes: &[u8]) -> Result<Stepped, NoMemory>
    requires { (f : FrameValue) × IsFrame bytes.now f }
    ensures { IfOk result (λ told. (f : FrameValue) → IsFrame bytes.now f → told ≡ shown_by f) }
{
    match take_frame(alloc, bytes) {
        Ok((Frame::Entry { entry, .. }, _)) => did(&entry),
        Ok((Frame::Output { output, .. }, _)) => emitted(output),
        Err(FrameError::NoMemory) => Err(NoMemory),
        Err(FrameError::Fault(_)) => unreachable!(),
    }
}

/// All that the call of a move showed that is kept in this form.
fn whole(alloc: Global, epoch: u32, threads: u32, form: Form) -> Result<Stepped, NoMemory>
    requires { IsFor epoch threads form }
    ensures { IfOk result (λ stepped. stepped ≡ shown form) }
{
    let _ = (epoch, threads);
    match form {
        Form::Took(k) => Ok(Stepped::Took(k)),
        Form::Ended(k) => Ok(Stepped::Ended(k)),
        Form::Logged { frame, .. } => told_in(alloc, frame.as_slice()),
        Form::Sent { frame, .. } => told_in(alloc, frame.as_slice()),
        Form::Whole(stepped) => Ok(Box::into_inner(stepped)),
    }
}

impl KeptMove {
    /// Keeps what a move left; where that has a frame by a sender of this epoch and number of threads, as this frame.
    pub fn of(alloc: Global, epoch: u32, threads: u32, stepped: Stepped) -> Result<Self, NoMemory>
        ensures { IfOk result (λ kept. kept ≡ stepped) }
    {
        Ok(KeptMove {
            epoch,
            threads,
            form: kept_form(alloc, epoch, threads, stepped)?,
        })
    }

    /// The form in which it is kept, if its frame says this epoch and this number of threads; else the whole.
    pub fn into_form(self, alloc: Global, epoch: u32, threads: u32) -> Result<Form, NoMemory>
        ensures shown { IfOk result (λ form. shown form ≡ self) }
        ensures frame { IfOk result (IsFor epoch threads) }
    {
        if self.epoch == epoch && self.threads == threads {
            return Ok(self.form);
        }
        let stepped = whole(alloc, self.epoch, self.threads, self.form)?;
        Ok(Form::Whole(Box::new(alloc, stepped)?))
    }
}
