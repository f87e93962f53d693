ghost use Rattle.std.specs.Prelude.{◌≡◌, ◌++◌, IfOk, codes, decimal};

use plain_text::{Bytes, NoMemory, put_u64};
use std::alloc::Global;

/// A line of one word and a number behind it.
pub fn put_count(alloc: Global, word: &[u8], count: u64) -> Result<Bytes, NoMemory>
    ensures { IfOk result (λ text. text ≡ word.now ++ decimal count ++ codes "\n") }
{
    let mut text = Bytes::of(alloc, word)?;
    put_u64(&mut text, count)?;
    text.push(b'\n')?;
    Ok(text)
}
