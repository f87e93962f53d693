ghost use Rattle.std.specs.Prelude.{◌≡◌, ◌≤◌, ◌++◌, Some, None, decimal, length, IfOk, IfErr};
ghost use Rattle.std.specs.Prelude.{IfSome, OnOk};
ghost use Rattle.plain_text.specs.declared.limit.TheConstants.{MOST_EVENTS as most_lines};
ghost use Rattle.plain_text.specs.Lines.{words_of};
ghost use Rattle.plain_player.specs.Reading.{answer_in};
ghost use Rattle.plain_player.specs.ScheduleText.{answer_text, move_line, schedule_text};
ghost use Rattle.plain_player.specs.Schedules.{FitLines, FitsLine, IsAnswer, IsSchedule, IsRefused};
ghost use Rattle.plain_player.specs.Schedules.{SaysMove, move_fault};

use plain_machine::{PlainMove, Schedule};
use plain_text::{
    Bytes, LineCause, LineFault, MOST_EVENTS, NoMemory, ReadError, WordIter, lines, put_u64,
    read_u64, words,
};
use std::alloc::Global;

/// Reads a schedule: one move on each line that counts, `T`, or `T = A` where the move is told the answer A. Its time
/// and memory grow with the length of the text, and no faster.
///
/// It answers `TooMany` where more than `MOST_EVENTS` lines count before the first faulty one, or at all. Else it
/// answers `Fault` with the first faulty line, if there is one. A first word that is no number is a bad number, and a
/// thread above 2^32 - 1 is out of range.
pub fn read_schedule(alloc: Global, text: &[u8]) -> Result<Schedule, ReadError>
    ensures schedule { IfOk result (IsSchedule text.now) }
    ensures few { IfOk result (λ moves. length moves ≤ most_lines) }
    ensures refused { IfErr result (IsRefused text.now) }
{
    let mut moves = Schedule::new(alloc);
    let mut room = MOST_EVENTS;
    for line in lines(text) {
        let plain = match read_move(line.bytes) {
            Ok(plain) => plain,
            Err(cause) => {
                let line = line.number;
                return Err(ReadError::Fault(LineFault { line, cause }));
            }
        };
        if room == 0 {
            return Err(ReadError::TooMany);
        }
        room -= 1;
        moves.push(plain)?;
    }
    Ok(moves)
}

/// The move that a line says, or its fault.
fn read_move(line: &[u8]) -> Result<PlainMove, LineCause>
    ensures says { IfOk result (SaysMove (words_of line.now)) }
    ensures fault { IfErr result (λ cause. move_fault (words_of line.now) ≡ Some cause) }
{
    if let Some(thread) = one_digit(line) {
        let answer = None;
        return Ok(PlainMove { thread, answer });
    }
    let mut left = words(line);
    let Some(word) = left.next() else {
        return Err(LineCause::MissingWord);
    };
    let Some(number) = read_u64(word) else {
        return Err(LineCause::BadNumber);
    };
    let answer = read_answer(left)?;
    match u32::try_from(number) {
        Ok(thread) => Ok(PlainMove { thread, answer }),
        Err(_) => Err(LineCause::OutOfRange),
    }
}

/// The thread of a line of one digit: most lines are of one, and need no search for words.
#[tactic(auto, using(crate::proofs::WrittenSchedules::one_digit_says))]
fn one_digit(line: &[u8]) -> Option<u32>
    ensures { IfSome result (λ thread. SaysMove (words_of line.now)
        (record { thread = thread; answer = None })) }
{
    match line {
        [digit] if digit.is_ascii_digit() => Some(u32::from(*digit - b'0')),
        _ => None,
    }
}

/// The answer that the words behind the thread tell, or their fault.
fn read_answer(mut words: WordIter<'_>) -> Result<Option<u64>, LineCause>
    ensures { result ≡ answer_in words.entry }
{
    let Some(sign) = words.next() else {
        return Ok(None);
    };
    if sign != b"=".as_slice() {
        return Err(LineCause::UnknownWord);
    }
    let Some(word) = words.next() else {
        return Err(LineCause::MissingWord);
    };
    let Some(answer) = read_u64(word) else {
        return Err(LineCause::BadNumber);
    };
    match words.next() {
        None => Ok(Some(answer)),
        Some(_) => Err(LineCause::ExtraWord),
    }
}

/// The text of a schedule: a line for each move, `T`, or `T = A` where the move is told the answer A. Each move fits
/// its line, so the text is read back.
pub fn put_schedule(alloc: Global, schedule: &Schedule) -> Result<Bytes, NoMemory>
    ensures text { IfOk result (λ text. text ≡ schedule_text schedule.now) }
    ensures fit_lines { OnOk result (FitLines schedule.now) }
{
    let mut text = Bytes::new(alloc);
    for index in 0..schedule.len() {
        put_move(&mut text, schedule.at(index))?;
        text.push(b'\n')?;
    }
    Ok(text)
}

/// Appends the line of a move, without a line feed.
pub fn put_move(text: &mut Bytes, plain: PlainMove) -> Result<(), NoMemory>
    ensures text { OnOk result (text.new ≡ text.old ++ move_line plain) }
    ensures fits { OnOk result (FitsLine plain) }
{
    put_thread(text, plain.thread)?;
    put_answer(text, plain.answer)
}

/// Appends the number of a thread. Most are of one digit, and need no format.
#[tactic(auto, using(crate::proofs::WrittenSchedules::digit_text))]
fn put_thread(text: &mut Bytes, thread: u32) -> Result<(), NoMemory>
    ensures { OnOk result (text.new ≡ text.old ++ decimal thread) }
{
    if thread < 10 {
        return text.push(b'0' + thread as u8);
    }
    put_u64(text, u64::from(thread))
}

/// Appends what a move is told, where it is told something.
fn put_answer(text: &mut Bytes, answer: Option<u64>) -> Result<(), NoMemory>
    ensures text { OnOk result (text.new ≡ text.old ++ answer_text answer) }
    ensures fits { OnOk result (IsAnswer answer) }
{
    match answer {
        None => Ok(()),
        Some(answer) => {
            text.extend(b" = ")?;
            put_u64(text, answer)
        }
    }
}
