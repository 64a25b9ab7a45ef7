// Cuts a line of any bytes into its words.
#![tactic(auto)]

ghost use Rattle.std.specs.Prelude.{◌≡◌, ℕ, List, true, false, IfOk};
ghost use Rattle.words.specs.Words.{blank, Run, WordsOf, texts};

use std::alloc::{AllocError, Global};

fn is_blank(byte: u8) -> bool
    ensures { result ≡ blank byte }
{
    matches!(byte, b' ' | b'\t' | b'\r')
}

// The blanks at the front of a line, and what follows them.
fn split_gap<'a>(line: &'a [u8]) -> (&'a [u8], &'a [u8])
    ensures { Run true line.now result.0.now result.1.now }
{
    let end = line.iter().position(|byte| !is_blank(*byte));
    line.split_at(end.unwrap_or(line.len()))
}

// The word at the front of a line, up to its first blank, and what follows it. Beside the one above: as one function the two would take a flag.
fn split_word<'a>(line: &'a [u8]) -> (&'a [u8], &'a [u8])
    ensures { Run false line.now result.0.now result.1.now }
{
    let end = line.iter().position(|byte| is_blank(*byte));
    line.split_at(end.unwrap_or(line.len()))
}

// The words of a line: its longest runs of bytes that are no blanks. They borrow the line.
// A loop over the words: of the pieces of a split, each blank of a gap would make one of its own.
pub fn words<'a>(heap: Global, line: &'a [u8]) -> Result<Vec<&'a [u8]>, AllocError>
    ensures items { IfOk result (λ v. WordsOf line.now (texts v.items)) }
    ensures only { IfOk result (λ v. (ws : List (List ℕ)) → WordsOf line.now ws → ws ≡ texts v.items) }
{
    let mut words = Vec::new(heap);
    let mut rest = split_gap(line).1;
    while !rest.is_empty() {
        let (word, after) = split_word(rest);
        words.push(word)?;
        rest = split_gap(after).1;
    }
    Ok(words)
}

#[cfg(test)]
mod tests {
    use super::*;
    use std::test::Fail;

    #[test]
    fn blank_lines_have_no_words(rt: HostRuntime) -> Result<(), Fail> {
        let none = words(rt.alloc(), b"")?;
        assert_eq!(rt; none.len(), 0);
        let blanks = words(rt.alloc(), b" \t\r ")?;
        assert_eq!(rt; blanks.len(), 0);
        Ok(())
    }

    #[test]
    fn blanks_part_words(rt: HostRuntime) -> Result<(), Fail> {
        let found = words(rt.alloc(), b"\t take  \xff\t\ttwo,three\n \r")?;
        assert!(rt; found.len() == 3);
        assert_eq!(rt; found[0], b"take".as_slice());
        assert_eq!(rt; found[1], b"\xff".as_slice());
        assert_eq!(rt; found[2], b"two,three\n".as_slice());
        Ok(())
    }
}
