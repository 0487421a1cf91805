//! What the program prints at its end, and its status.

ghost use Rattle.std.specs.Prelude.{◌≡◌, ◌≤◌, ◌<◌, ◌++◌, ◌^◌, true, is_some, length, take, Result};
ghost use Rattle.corr_site.specs.Outside.{HasCause, Writes};
ghost use Rattle.corr_report.specs.Texts.{settings_text, status_text, usage_text};
ghost use Rattle.corr_settings.specs.Named.{HasShortName};
ghost use Rattle.corr_report.specs.Summaries.{stream_text, summary_text};
ghost use Rattle.corr_cli.specs.Texts.{HaveEnded, IsPrintable, Tells, later_text, streams_text, text_of};

use crate::answer::{Answer, Status};
use corr_report::{StatusLine, settings_line, status_line, stream_line, summary_line, usage};
use corr_settings::SetRefusal;
use corr_site::{Failed, TextSink};
use stream_feed::StreamReport;
use vis_send::Sent;

/// Prints the whole text of an answer and gives the status. A fault of printing changes the code
/// only where it would be 0.
pub fn tell<P: TextSink>(answer: &Answer, print: &mut P) -> Status
    requires { IsPrintable answer.now }
    ensures { Tells (P.written print.old) (P.written print.new) (P.faults print.old) (P.faults print.new)
        answer.now result.code }
{
    let code = answer.code();
    match print_answer(answer, print) {
        Ok(()) => Status { code },
        Err(_) => Status {
            code: if code == 0 { 6 } else { code },
        },
    }
}

/// Prints that there is no memory, as a program does that could not even make its sources.
pub fn no_memory<P: TextSink>(print: &mut P) -> Status
    ensures { Tells (P.written print.old) (P.written print.new) (P.faults print.old) (P.faults print.new)
        Answer.NoMemory result.code }
{
    tell(&Answer::NoMemory, print)
}

// Prints the text of an answer.
fn print_answer<P: TextSink>(answer: &Answer, print: &mut P) -> Result<(), Failed>
    requires { IsPrintable answer.now }
    ensures written { Writes (P.written print.old) (P.written print.new) result (text_of answer.now) }
    ensures cause { HasCause (P.faults print.old) (P.faults print.new) result }
{
    match answer {
        Answer::Usage => print_usage(print),
        Answer::SettingsFault => print_status(&StatusLine::SettingsFault, print),
        Answer::Settings(refusal) => print_refusal(refusal, print),
        Answer::NotBegun(antenna) => print_status(&StatusLine::SourceFault(*antenna), print),
        Answer::Sent(packets, fault) => print_sent(*packets, *fault, print),
        Answer::Summed(sent, reports, fault) => {
            print_summary(sent, reports.as_slice(), *fault, print)
        }
        Answer::Simulated(packets) => print_status(&StatusLine::Simulated(*packets), print),
        Answer::SinkFault => print_status(&StatusLine::SinkFault, print),
        Answer::NoMemory => print_status(&StatusLine::NoMemory, print),
    }
}

// Prints how the program is called.
fn print_usage<P: TextSink>(print: &mut P) -> Result<(), Failed>
    ensures written { Writes (P.written print.old) (P.written print.new) result usage_text }
    ensures cause { HasCause (P.faults print.old) (P.faults print.new) result }
{
    let mut line = [0; 1024];
    let len = usage(&mut line);
    print.write(front(&line, len))
}

// Prints the line of a status.
pub(crate) fn print_status<P: TextSink>(status: &StatusLine, print: &mut P) -> Result<(), Failed>
    ensures written { Writes (P.written print.old) (P.written print.new) result (status_text status.now) }
    ensures cause { HasCause (P.faults print.old) (P.faults print.new) result }
{
    let mut line = [0; 1024];
    let len = status_line(status, &mut line);
    print.write(front(&line, len))
}

// Prints the line on refused settings.
fn print_refusal<P: TextSink>(refusal: &SetRefusal, print: &mut P) -> Result<(), Failed>
    requires { HasShortName refusal.now }
    ensures written { Writes (P.written print.old) (P.written print.new) result (settings_text refusal.now) }
    ensures cause { HasCause (P.faults print.old) (P.faults print.new) result }
{
    let mut line = [0; 1024];
    let len = settings_line(refusal, &mut line);
    print.write(front(&line, len))
}

// Prints how many packets were sent, and whose source failed, if one did.
fn print_sent<P: TextSink>(packets: u64, fault: Option<u32>, print: &mut P) -> Result<(), Failed>
    ensures written { Writes (P.written print.old) (P.written print.new) result (text_of (Answer.Sent packets fault)) }
    ensures cause { HasCause (P.faults print.old) (P.faults print.new) result }
{
    if let Err(failed) = print_status(&StatusLine::Sent(packets), print) {
        return Err(failed);
    }
    print_fault(fault, print)
}

// Prints whose source failed, if one did.
fn print_fault<P: TextSink>(fault: Option<u32>, print: &mut P) -> Result<(), Failed>
    ensures written { Writes (P.written print.old) (P.written print.new) result (later_text fault) }
    ensures cause { HasCause (P.faults print.old) (P.faults print.new) result }
{
    match fault {
        Some(antenna) => print_status(&StatusLine::SourceFault(antenna), print),
        None => Ok(()),
    }
}

// Prints what was sent, and the report on each stream.
fn print_summary<P: TextSink>(
    sent: &Sent,
    reports: &[StreamReport],
    fault: Option<u32>,
    print: &mut P,
) -> Result<(), Failed>
    requires { HaveEnded reports.now }
    ensures written { Writes (P.written print.old) (P.written print.new) result
        (summary_text sent.now ++ (streams_text 0 reports.now ++ later_text fault)) }
    ensures cause { HasCause (P.faults print.old) (P.faults print.new) result }
{
    let mut line = [0; 1024];
    let len = summary_line(sent, &mut line);
    if let Err(failed) = print.write(front(&line, len)) {
        return Err(failed);
    }
    print_streams(reports, fault, print)
}

// Prints the report on each stream, and whose source failed, if one did.
fn print_streams<P: TextSink>(
    reports: &[StreamReport],
    fault: Option<u32>,
    print: &mut P,
) -> Result<(), Failed>
    requires { HaveEnded reports.now }
    ensures written { Writes (P.written print.old) (P.written print.new) result
        (streams_text 0 reports.now ++ later_text fault) }
    ensures cause { HasCause (P.faults print.old) (P.faults print.new) result }
{
    for antenna in 0..reports.len() {
        if let Err(failed) = print_stream(antenna as u32, &reports[antenna], print) {
            return Err(failed);
        }
    }
    print_fault(fault, print)
}

// Prints the report on a stream.
fn print_stream<P: TextSink>(
    antenna: u32,
    report: &StreamReport,
    print: &mut P,
) -> Result<(), Failed>
    requires { is_some report.now.ended ≡ true }
    ensures written { Writes (P.written print.old) (P.written print.new) result (stream_text antenna report.now) }
    ensures cause { HasCause (P.faults print.old) (P.faults print.new) result }
{
    let mut line = [0; 1024];
    let len = stream_line(antenna, report, &mut line);
    print.write(front(&line, len))
}

// The bytes at the front of a line's buffer.
fn front(line: &[u8; 1024], len: usize) -> &[u8]
    requires { len ≤ 1024 }
    ensures { result.now ≡ take len line.now }
{
    &line[..len]
}
