ghost use Rattle.std.specs.Prelude.{◌≡◌, ◌++◌, IfOk, OnOk};
ghost use Rattle.drill_report.specs.Report.{crash_lines, fact, packet_lines, report_text};
ghost use Rattle.drill_report.specs.Report.{verdict as verdict_of};
ghost use Rattle.drill_report.specs.Said.{said_by};

use crate::drops::put_drops;
use plain_text::{Bytes, NoMemory, put_u64};
use recovery_world::Outcome;
use std::alloc::Global;

/// Appends a line: a word and a number.
fn put_fact(out: &mut Bytes, word: &[u8], number: u64) -> Result<(), NoMemory>
    ensures { OnOk result (out.new ≡ out.old ++ fact word.now number) }
{
    out.extend(word)?;
    put_u64(out, number)?;
    out.push(b'\n')
}

/// Appends the last line: whether the same packets left as without crashes.
fn put_verdict(out: &mut Bytes, differs: Option<u64>) -> Result<(), NoMemory>
    ensures { OnOk result (out.new ≡ out.old ++ verdict_of differs) }
{
    match differs {
        None => out.extend(b"same as without crashes\n"),
        Some(place) => put_fact(out, b"differs at ", place),
    }
}

/// What the report of a drill says.
#[derive(Clone, Copy)]
pub struct Facts<'a> {
    /// The packets that came in.
    pub fed: u64,
    /// The packets that were released.
    pub released: u64,
    /// Whether the box has a table of drops.
    pub table: bool,
    /// What showing variable 0 came to, which is the table.
    pub shown: &'a Outcome,
    /// The outputs that wait or are under way.
    pub waiting: u64,
    /// How often the master crashed.
    pub crashes: u64,
    /// How many entries new masters were given to follow, in all.
    pub replayed: u64,
    /// The place of the first packet, from 1, that differs from the run without crashes.
    pub differs: Option<u64>,
}

/// Appends the lines on what became of the packets.
fn put_packets(out: &mut Bytes, facts: &Facts<'_>) -> Result<(), NoMemory>
    ensures { OnOk result (out.new ≡ out.old ++ packet_lines (said_by facts.now)) }
{
    put_fact(out, b"in ", facts.fed)?;
    put_fact(out, b"released ", facts.released)?;
    put_drops(out, facts.table, facts.shown)?;
    put_fact(out, b"waiting ", facts.waiting)
}

/// Appends the lines on the crashes.
fn put_crashes(out: &mut Bytes, facts: &Facts<'_>) -> Result<(), NoMemory>
    ensures { OnOk result (out.new ≡ out.old ++ crash_lines (said_by facts.now)) }
{
    put_fact(out, b"crashes ", facts.crashes)?;
    put_fact(out, b"replayed ", facts.replayed)?;
    put_verdict(out, facts.differs)
}

/// The report of a drill.
pub fn put_report(alloc: Global, facts: &Facts<'_>) -> Result<Bytes, NoMemory>
    ensures { IfOk result (λ text. text ≡ report_text (said_by facts.now)) }
{
    let mut text = Bytes::new(alloc);
    put_packets(&mut text, facts)?;
    put_crashes(&mut text, facts)?;
    Ok(text)
}
