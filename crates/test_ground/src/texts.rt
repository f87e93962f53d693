use flow_text::address_text;
use plain_text::{Field, LineCause, NoMemory, Sequence, end_of_line, read_field, words};
use std::alloc::Global;

/// Adds the numbers below 100,000.
fn push_numbers(items: &mut Sequence<u32>) -> Result<(), NoMemory> {
    for item in 0..100_000u32 {
        items.push(item)?;
    }
    Ok(())
}

/// Whether there are as many items, from the first number to the last.
fn are_numbers(items: &[u32]) -> bool {
    items.len() == 100_000 && items.first() == Some(&0) && items.last() == Some(&99_999)
}

#[test]
fn grows_to_a_hundred_thousand_items(rt: HostRuntime) -> Result<(), NoMemory> {
    let mut items = Sequence::new(rt.alloc());
    push_numbers(&mut items)?;
    assert!(rt; are_numbers(items.as_slice()));
    Ok(())
}

/// The address and the number of a line `at ADDRESS N`.
fn address_and_number(line: &[u8]) -> Result<(u64, u64), LineCause> {
    let mut left = words(line);
    read_field(&mut left, Field::Fixed(b"at"))?;
    let address = read_field(&mut left, Field::Address)?;
    let number = read_field(&mut left, Field::Number)?;
    end_of_line(left)?;
    Ok((address, number))
}

/// Whether a line has these numbers, and others have no address, a word too many, or another first word.
fn lines_are_read() -> bool {
    address_and_number(b"at 0.0.1.0 8") == Ok((256, 8))
        && address_and_number(b"at 0.0.1 8") == Err(LineCause::BadNumber)
        && address_and_number(b"at 0.0.1.0 8 8") == Err(LineCause::ExtraWord)
        && address_and_number(b"to 0.0.1.0") == Err(LineCause::UnknownWord)
}

/// Whether an address has this text.
fn is_address(alloc: Global, address: u32, text: &str) -> bool {
    match address_text(alloc, address) {
        Ok(written) => written.as_str() == text,
        Err(NoMemory) => false,
    }
}

#[test]
fn fields_of_lines_are_read(rt: HostRuntime) {
    assert!(rt; lines_are_read());
    assert!(rt; is_address(rt.alloc(), 0xc633_6407, "198.51.100.7"));
}
