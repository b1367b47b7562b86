// Writes what a run prints, line by line: in each match every case has a report or a text of its own.
ghost use Rattle.std.specs.Prelude.{◌≡◌, ◌++◌, Some as Shown, string_bytes, OnOk};
ghost use Rattle.machine.specs.Statements.{closing_of};
ghost use Rattle.transcript.specs.Reports.{report_of, value_report, served};
ghost use Rattle.transcript.specs.Texts.{row_text, closing_text};
ghost use Rattle.transcript.specs.Woven.{woven};

use crate::fault::RunFault;
use crate::report::Report;
use entry::Entry;
use entry::calibration::Calibration;
use entry::reading::Reading;
use grammar::command::Command;
use grammar::fault::LineFault;
use machine::answer::Answer;
use machine::fault::Fault;
use machine::statement::Statement;
use std::alloc::AllocError;
use std::fmt::Write;
use store::value::Value;

// The entry in what a key holds: of one kind or the other.
fn value_report(value: Value) -> Result<Report, Fault>
    ensures { result ≡ value_report (Shown value) }
{
    let calibration = Calibration::decode(value).map(Report::Calibration);
    Ok(calibration.or_else(|_| Reading::decode(value).map(Report::Reading))?)
}

// What a line reports of the answer to its call, or the refusal.
impl TryFrom<&Answer> for Report {
    type Error = Fault;

    ghost try_from_gives = { λ answer result. result ≡ report_of answer.now };

    fn try_from(answer: &Answer) -> Result<Report, Fault> {
        match answer {
            Answer::Found(None) => Ok(Report::Nothing),
            Answer::Found(Some(value)) => value_report(*value),
            Answer::FoundCalibration(None) => Ok(Report::Nothing),
            Answer::FoundCalibration(Some(entry)) => Ok(Report::Calibration(*entry)),
            Answer::FoundReading(None) => Ok(Report::Nothing),
            Answer::FoundReading(Some(entry)) => Ok(Report::Reading(*entry)),
            Answer::Stored(put) => Ok(Report::Stored(*put)),
            Answer::Removed(true) => Ok(Report::Gone),
            Answer::Removed(false) => Ok(Report::Nothing),
            Answer::Opened(store) => Ok(Report::Opened(*store)),
            Answer::Moved(moved) => Ok(Report::Moved(*moved)),
            Answer::Done => Ok(Report::Done),
            Answer::Refused(fault) => Err(*fault),
        }
    }
}

// What a line whose call was made comes to.
fn outcome(answer: &Answer) -> Result<Report, RunFault>
    ensures { result ≡ served (report_of answer.now) }
{
    Ok(Report::try_from(answer)?)
}

// Writes the line that is printed for the line with a number.
pub fn write_row(
    out: &mut String,
    number: usize,
    outcome: &Result<Report, RunFault>,
) -> Result<(), AllocError>
    ensures { OnOk result (string_bytes out.new ≡ string_bytes out.old ++ row_text number outcome.now) }
{
    // Both arms write alike, but a report and a fault are of two types.
    match outcome {
        Ok(report) => writeln!(out, "{number} {report}"),
        Err(fault) => writeln!(out, "{number} {fault}"),
    }
}

// Writes a line for each row, the first of which has number 2. Each command has the next of the answers.
pub fn write_rows(
    out: &mut String,
    rows: &[Result<Command, LineFault>],
    answers: &[Answer],
) -> Result<(), AllocError>
    ensures { OnOk result (string_bytes out.new ≡ string_bytes out.old ++ woven 2 rows.now answers.now) }
{
    let mut left = answers.iter();
    for (i, row) in rows.iter().enumerate() {
        match row {
            Err(fault) => write_row(out, i + 2, &Err(RunFault::Line(*fault)))?,
            Ok(_) => {
                let Some(answer) = left.next() else {
                    return Ok(());
                };
                write_row(out, i + 2, &outcome(answer))?;
            }
        }
    }
    Ok(())
}

// Writes what a service says of itself at its end.
pub fn write_closing(out: &mut String, statement: &Statement) -> Result<(), AllocError>
    ensures { OnOk result (string_bytes out.new ≡ string_bytes out.old ++ closing_text (closing_of statement.now)) }
{
    let copied = statement.copied;
    match statement.change {
        None => writeln!(out, "copies {copied}\nsettled"),
        Some(change) => writeln!(out, "copies {copied}\n{change}"),
    }
}
