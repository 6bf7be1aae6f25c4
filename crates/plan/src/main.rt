//! Reads a survey from standard input and writes the sheet of its site, or the line that refuses it.
#![tactic(auto)]

ghost use Rattle.std.specs.Prelude.{◌≡◌, IfOk, OnOk, IfSome, take, vec_items};
ghost use Rattle.std.specs.Io.KnownBytes.{Appends};
ghost use Rattle.std.specs.Process.{exit_status};
ghost use Rattle.plan.specs.Planned.{sheet_for, length_for, written_to, status_of, output_of};

use book::Book;
use std::alloc::Global;
use std::io::{Read, Write};
use std::process::ExitCode;
use survey::{SurveyFault, read_survey};

/// Writes the sheet of a survey to a buffer. Answers its length.
fn plan(text: &[u8], sheet: &mut [u8; sheet::LONGEST]) -> Result<usize, SurveyFault>
    ensures answer { result ≡ length_for (sheet_for text.now) }
    ensures sheet { sheet.new ≡ written_to (sheet_for text.now) sheet.old }
{
    let mut book = Book::new();
    read_survey(&mut book, text)?;
    // proved never to be refused: there are stations, and no sheet is longer than the buffer
    Ok(book.write_out(sheet).unwrap())
}

/// Reads a text, up to one byte more than a survey may have, so that a longer one is seen.
fn read_text<R: Read + Drop>(heap: Global, input: R) -> anyhow::Result<Vec<u8>>
    ensures { IfOk result (λ text. IfSome (R.remaining input) (λ bytes. vec_items text ≡ take 60001 bytes)) }
{
    let mut text = Vec::new(heap);
    input
        .take(survey::LONGEST as u64 + 1)
        .read_to_end(&mut text)?;
    Ok(text)
}

/// Writes the sheet of a survey, or the line that refuses it.
fn tell<W: Write>(out: &mut W, text: &[u8]) -> anyhow::Result<ExitCode>
    ensures written { OnOk result (Appends (W.contents out.old) (W.contents out.new) (output_of (sheet_for text.now))) }
    ensures status { IfOk result (λ code. exit_status code ≡ status_of (sheet_for text.now)) }
{
    let mut sheet = [0; sheet::LONGEST];
    match plan(text, &mut sheet) {
        Ok(length) => {
            out.write_all(&sheet[..length])?;
            Ok(ExitCode::SUCCESS)
        }
        Err(fault) => {
            let line = fault.refusal_line();
            write!(out, "{line}")?;
            Ok(ExitCode::FAILURE)
        }
    }
}

/// Reads a survey and tells what comes of it.
fn run(rt: &HostRuntime) -> anyhow::Result<ExitCode> {
    let text = read_text(rt.alloc(), rt.stdin())?;
    tell(&mut rt.stdout(), text.as_slice())
}

fn main(rt: HostRuntime) -> ExitCode {
    // whatever goes wrong, nothing is written to standard error
    run(&rt).unwrap_or(ExitCode::FAILURE)
}
