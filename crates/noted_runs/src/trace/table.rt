ghost use Rattle.std.specs.Prelude.{◌≡◌, ◌++◌, IfOk, OnOk, decimal};
ghost use Rattle.noted_runs.specs.Table.{fate_words, left_words, row_line, tab, table_text};

use crate::trace::rows::{Departure, Fate, Row};
use drill_report::put_reason;
use plain_text::{Bytes, NoMemory, put_u64};
use std::alloc::Global;

/// Appends a number and a tab.
fn put_column(out: &mut Bytes, number: u64) -> Result<(), NoMemory>
    ensures { OnOk result (out.new ≡ out.old ++ decimal number ++ tab) }
{
    put_u64(out, number)?;
    out.push(b'\t')
}

/// Appends a word and a number.
fn put_word(out: &mut Bytes, word: &[u8], number: u64) -> Result<(), NoMemory>
    ensures { OnOk result (out.new ≡ out.old ++ word.now ++ decimal number) }
{
    out.extend(word)?;
    put_u64(out, number)
}

/// Appends the columns `epoch` and `event`.
fn put_left(out: &mut Bytes, left: Option<Departure>) -> Result<(), NoMemory>
    ensures { OnOk result (out.new ≡ out.old ++ left_words left) }
{
    match left {
        None => out.extend(b"-\t-"),
        Some(left) => {
            put_column(out, u64::from(left.epoch))?;
            put_u64(out, left.event)
        }
    }
}

/// Appends the column `fate`.
fn put_fate(out: &mut Bytes, fate: Fate) -> Result<(), NoMemory>
    ensures { OnOk result (out.new ≡ out.old ++ fate_words fate) }
{
    match fate {
        Fate::Released(place) => put_word(out, b"released ", place),
        Fate::Waiting { thread, number } => {
            put_word(out, b"waiting ", u64::from(thread))?;
            put_word(out, b" ", number)
        }
        Fate::UnderWay => out.extend(b"under way"),
        Fate::Dropped(digit) => {
            out.extend(b"dropped ")?;
            put_reason(out, digit)
        }
        Fate::NoOutput => out.extend(b"no output"),
        Fate::InHand => out.extend(b"in hand"),
        Fate::NotTaken => out.extend(b"not taken"),
    }
}

/// Appends the line of a row.
fn put_row(out: &mut Bytes, row: &Row) -> Result<(), NoMemory>
    ensures { OnOk result (out.new ≡ out.old ++ row_line row.now) }
{
    put_column(out, row.packet)?;
    put_column(out, u64::from(row.thread))?;
    put_column(out, row.input)?;
    put_left(out, row.left)?;
    out.push(b'\t')?;
    put_fate(out, row.fate)?;
    out.push(b'\n')
}

/// The text of a table: a heading, and the line of each row.
pub fn put_table(alloc: Global, rows: &[Row]) -> Result<Bytes, NoMemory>
    ensures { IfOk result (λ text. text ≡ table_text rows.now) }
{
    let mut text = Bytes::of(alloc, b"packet\tthread\tinput\tepoch\tevent\tfate\n")?;
    for row in rows {
        put_row(&mut text, row)?;
    }
    Ok(text)
}
