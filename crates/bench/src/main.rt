//! The benchmark. The first word says which work, and the other words what it is done with:
//!
//! - `frames COUNT TIMES`: COUNT frames of log entries, each read TIMES times
//! - `handovers COUNT WRITES RESUMES`: the image of a system that settled COUNT packets of 63 moves, written WRITES
//!   times as a text, from which RESUMES systems go on
//! - `headers CHECKSUMS REWRITINGS`: the checksums of CHECKSUMS payloads, and REWRITINGS rewritings of a frame
//! - `held COUNT`: COUNT log entries of each of two threads, into a held set
//! - `locks step|locks THREADS own|one COUNT`: touches by a master alone or by threads that race, on variables of their
//!   own or on one, with COUNT packets for each thread
//! - `logger FORWARD REVERSE`: FORWARD outputs through an output logger in order, and REVERSE outputs with the last one
//!   first
//! - `moves player|master COUNT TIMES`: COUNT packets, all of them TIMES times
//! - `rounds feed|alone|race|open|whole monitor|nat THREADS COUNT`: COUNT packets by a master alone, by threads that
//!   race, or in a whole round of the recovering system; or only what comes before that
//! - `scripts COUNT`: a script of COUNT lines, which is read
//! - `system count|monitor settle|single COUNT`: COUNT packets through the recovering system
//! - `sample`: each of these with small numbers, one after another
//!
//! What it prints is the same at each run with the same words.
#![tactic(auto)]

mod done;
mod frames;
mod handovers;
mod headers;
mod held;
mod inputs;
mod locks;
mod logger;
mod moves;
mod one_packet;
mod packets;
mod racing;
mod rounds;
mod scripts;
mod stepping;
mod system;
mod words;

use anyhow::{Context, bail};
use std::env;
use std::env::Args;
use std::sync::Wait;
use std::thread::Threads;
use words::words_of;

/// Each work with the other words of its sample.
const SAMPLES: [(&str, &str); 10] = [
    ("frames", "1000 2"),
    ("handovers", "10 2 2"),
    ("headers", "1000 1000"),
    ("held", "1000"),
    ("locks", "locks 2 own 10"),
    ("logger", "1000 1000"),
    ("moves", "master 100 2"),
    ("rounds", "whole monitor 2 50"),
    ("scripts", "1000"),
    ("system", "monitor single 100"),
];

/// Does the work of this name, with the words that come next.
fn perform<R: AllocGlobal + Print + Threads + Wait + Sync>(
    rt: &R,
    work: &str,
    words: &mut Args,
) -> anyhow::Result<()> {
    match work {
        "frames" => frames::run(rt, words),
        "handovers" => handovers::run(rt, words),
        "headers" => headers::run(rt, words),
        "held" => held::run(rt, words),
        "locks" => locks::run(rt, words),
        "logger" => logger::run(rt, words),
        "moves" => moves::run(rt, words),
        "rounds" => rounds::run(rt, words),
        "scripts" => scripts::run(rt, words),
        "system" => system::run(rt, words),
        _ => bail!("{work} is no work for a stopwatch"),
    }
}

/// Does the sample of each work.
fn perform_samples<R: AllocGlobal + Print + Threads + Wait + Sync>(rt: &R) -> anyhow::Result<()> {
    for (work, text) in SAMPLES {
        perform(rt, work, &mut words_of(rt.alloc(), text)?)?;
    }
    Ok(())
}

fn main(rt: HostRuntime) -> anyhow::Result<()> {
    let mut words = env::args(&rt)?;
    let _program = words.next();
    let work = words.next().context("which work?")?;
    match work.as_str() {
        "sample" => perform_samples(&rt),
        work => perform(&rt, work, &mut words),
    }
}
