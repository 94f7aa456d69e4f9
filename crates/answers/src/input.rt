//! Going through an input line by line.

ghost use Rattle.std.specs.Prelude.{◌≡◌, ℕ, List, [], ◌∷◌, ◌++◌, IfOk, OnOk, string_bytes};
ghost use Rattle.std.specs.Io.KnownBytes.{Appends};
ghost use Rattle.answers.specs.Lines.{Answers, AnswersAll, Says, one_line};

use crate::without_line_feed;
use std::alloc::{AllocError, Global};
use std::io;
use std::io::{BufRead, Write};

/// Writes a text and a line feed, through a buffered output too; nothing where there is no text.
fn write_line<W: Write>(output: &mut W, text: Option<String>) -> io::Result<()>
    ensures { OnOk result (Appends (W.contents output.old) (W.contents output.new) (one_line string_bytes text)) }
{
    match text {
        Some(text) => {
            writeln!(output, "{text}")?;
            output.flush()
        }
        None => Ok(()),
    }
}

/// Reads an input to its end and writes, for each of its lines, what is answered to the line's number, from 1, and the line
/// without the line feed that ends it: a text, which is written with a line feed, or nothing. The output is flushed after
/// each text, so that a buffered one, as a program's should be, gets each line in one write and before the next is read.
/// An input of 2^64 - 2 lines or more is an error.
#[tactic(auto, using(crate::proofs::Lines::begun))]
pub fn answer_lines<R: BufRead, W: Write, F: Fn(u64, &[u8]) -> io::Result<Option<String>>>(
    heap: Global,
    input: &mut R,
    output: &mut W,
    answer: F,
) -> io::Result<()>
    requires { F.IsAlwaysCallable answer }
    ensures { OnOk result (Answers (Says string_bytes (F.post answer)) (R.remaining input.old) (W.contents output.old) (W.contents output.new)) }
{
    let mut line = Vec::new(heap);
    for number in 1..u64::MAX {
        line.clear();
        if input.read_until(b'\n', &mut line)? == 0 {
            return Ok(());
        }
        write_line(output, answer(number, without_line_feed(line.as_slice()))?)?;
    }
    Err(io::Error::from(io::ErrorKind::FileTooLarge))
}

/// What answers the lines of an input, each by its number and its bytes alone.
pub trait Answering {
    // The text that answers a line.
    ghost text: { ℕ → List ℕ → List ℕ };

    /// The answer to a line.
    fn answer(&self, heap: Global, number: u64, line: &[u8]) -> Result<String, AllocError>
        ensures { IfOk result (λ s. string_bytes s ≡ text number line.now) };
}

/// Writes the answer to each line of an input, numbered from 1, with a line feed.
pub fn answer_all<R: BufRead, W: Write, A: Answering>(
    heap: Global,
    input: &mut R,
    output: &mut W,
    answering: &A,
) -> io::Result<()>
    ensures { OnOk result (AnswersAll A.text (R.remaining input.old) (W.contents output.old) (W.contents output.new)) }
{
    let told = |number: u64, line: &[u8]| -> io::Result<Option<String>>
        ensures { IfOk result (λ text. one_line string_bytes text ≡ A.text number line.now ++ (10 ∷ [])) }
    { Ok(Some(answering.answer(heap, number, line)?)) };
    answer_lines(heap, input, output, told)
}

#[cfg(test)]
mod tests {
    use super::answer_lines;
    use std::io;
    use std::io::{BufWriter, Write};

    /// Takes all that is written, and counts the writes.
    #[derive(Drop)]
    struct Writes {
        count: u32,
    }

    impl Write for Writes {
        fn write(&mut self, bytes: &[u8]) -> io::Result<usize> {
            self.count = self.count.saturating_add(1);
            Ok(bytes.len())
        }

        fn flush(&mut self) -> io::Result<()> {
            Ok(())
        }
    }

    #[test]
    fn writes_each_line_at_once(rt: HostRuntime) {
        let heap = rt.alloc();
        let mut input: &[u8] = b"one\ntwo\nthree";
        let Ok(mut output) = BufWriter::new(heap, Writes { count: 0 }) else {
            assert!(rt; false);
            return;
        };
        let done = answer_lines(heap, &mut input, &mut output, |number, _line| {
            Ok(Some(format!(in heap; "{number}")?))
        });
        assert!(rt; done.is_ok());
        assert!(rt; output.get_ref().count == 3);
    }

    #[test]
    fn leaves_lines_out(rt: HostRuntime) {
        let heap = rt.alloc();
        let mut input: &[u8] = b"one\n\nthree";
        let mut output = Vec::new(heap);
        let done = answer_lines(heap, &mut input, &mut output, |number, line| {
            if line.is_empty() {
                return Ok(None);
            }
            Ok(Some(format!(in heap; "{number}")?))
        });
        assert!(rt; done.is_ok());
        let text: &[u8] = b"1\n3\n";
        assert!(rt; output.as_slice() == text);
    }
}
