//! Blocks from a reader.
use std::alloc::Global;
use std::io;
use std::io::BufRead;

/// The text of the next block, up to a line `end` or to where the input ends; None where nothing is left.
pub fn next_block<R: BufRead>(heap: Global, input: &mut R) -> io::Result<Option<String>> {
    let mut text = String::new(heap);
    // a loop over an input, which may never end, wants a bound
    for _ in 0..u64::MAX {
        if input.read_line(&mut text)? == 0 || text.as_str().ends_with("\nend\n") {
            break;
        }
    }
    if text.is_empty() {
        Ok(None)
    } else {
        Ok(Some(text))
    }
}
