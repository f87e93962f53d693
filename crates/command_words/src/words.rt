ghost use Rattle.std.specs.Prelude.{◌≡◌, ◌⊎◌, IfOk, IfErr, map};
ghost use Rattle.std.specs.Result.{IsErrAnd};
ghost use Rattle.std.specs.IoError.{error_kind};
ghost use Rattle.std.specs.String.{string_bytes};
ghost use Rattle.std.specs.Vec.Iter.{into_iter_items};
ghost use Rattle.command_words.specs.Words.{Refuses, unmarked, words_of};

use job_commands::Status;
use plain_text::{NoMemory, Text};
use std::alloc::Global;
use std::env::Args;
use std::io;
use std::io::ErrorKind;

/// The words of the command line: all arguments after the program's name, in order, each with its
/// bytes. A first argument `--` is no word: it marks where they begin.
///
/// std gives no arguments where one is not UTF-8: this is a usage error.
pub fn read_words(alloc: Global, arguments: io::Result<Args>) -> Result<Vec<Text>, Status>
    ensures words { IfOk arguments (λ all. IfOk result (λ words. words.items ≡ words_of all)) }
    ensures copied { IfOk arguments (λ all. IfErr result (λ status. status ≡ Status.NoMemory)) }
    ensures refused { IfErr arguments (λ error. IsErrAnd result (Refuses (error_kind error))) }
    ensures outcome { IfErr result (λ status.
        (status ≡ Status.BadWords) ⊎ (status ≡ Status.NoMemory)) }
{
    let mut arguments = arguments.map_err(refusal)?;
    let _name = arguments.next();
    let mut words = copy_texts(alloc, arguments).map_err(|_| Status::NoMemory)?;
    drop_mark(&mut words);
    Ok(words)
}

/// Takes a first `--` away.
fn drop_mark(words: &mut Vec<Text>)
    ensures { words.new.items ≡ unmarked words.old.items }
{
    let marked = match words.first() {
        Some(word) => word.as_str() == "--",
        None => false,
    };
    if marked {
        words.remove(0);
    }
}

/// Why there are no arguments.
fn refusal(error: io::Error) -> Status
    ensures cause { Refuses (error_kind error) result }
    ensures outcome { (result ≡ Status.BadWords) ⊎ (result ≡ Status.NoMemory) }
{
    match error.kind() {
        ErrorKind::OutOfMemory => Status::NoMemory,
        _ => Status::BadWords,
    }
}

/// A text for each string, with its bytes.
fn copy_texts(alloc: Global, strings: Args) -> Result<Vec<Text>, NoMemory>
    ensures { IfOk result (λ texts. texts.items ≡ map string_bytes (into_iter_items strings)) }
{
    let mut texts = Vec::new(alloc);
    for string in strings {
        texts.push(Text::of(alloc, string.as_str())?)?;
    }
    Ok(texts)
}
