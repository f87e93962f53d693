//! How the program ends where no session can lead it.
use command_words::{StatusText, read_words};
use job_top::Status;
use plain_text::{Limit, NoMemory};
use std::alloc::Global;
use std::io;
use std::test::Fail;

/// What the program comes to where std gives no arguments, since one of them is not UTF-8.
fn refusal_of_none(alloc: Global) -> Option<Status> {
    let none = io::Error::from(io::ErrorKind::InvalidData);
    read_words(alloc, Err(none)).err()
}

#[test]
fn a_word_that_is_not_text_is_a_bad_word(rt: HostRuntime) -> Result<(), Fail> {
    assert!(rt; refusal_of_none(rt.alloc()) == Some(Status::BadWords));
    Ok(())
}

/// Statuses with their texts, and the numbers that the program ends with.
const ENDINGS: [(Status, &str, u8); 7] = [
    (Status::WriteFault, "write fault", 4),
    (Status::NoMemory, "no memory", 5),
    (Status::TooLarge(Limit::File), "too large: file", 7),
    (Status::TooLarge(Limit::Packets), "too large: packets", 7),
    (Status::TooLarge(Limit::Events), "too large: events", 7),
    (Status::TooLarge(Limit::Moves), "too large: moves", 7),
    (
        Status::TooLarge(Limit::OutputBytes),
        "too large: output bytes",
        7,
    ),
];

/// Whether a status has this text and this number.
fn ends_so(alloc: Global, status: Status, text: &str, number: u8) -> Result<bool, NoMemory> {
    let told = format!(in alloc; "{}", StatusText(status))?;
    Ok(told.as_str() == text && status.exit_code() == number)
}

#[test]
fn statuses_have_their_texts_and_numbers(rt: HostRuntime) -> Result<(), Fail> {
    for (status, text, number) in ENDINGS {
        assert!(rt; ends_so(rt.alloc(), status, text, number)?, "{text}");
    }
    Ok(())
}
