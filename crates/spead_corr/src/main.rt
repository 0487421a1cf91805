//! The program `spead_corr`: real files and standard output, handed to the correlator.
#![tactic(auto)]

mod seats;

use crate::seats::program_seats;
use corr_cli::{no_memory, run};
use corr_model::Unheard;
use corr_net::{FileText, HeldFiles, PrintFault, ProgramSink, Progress, StdPrint, say_usage};
use corr_site::{NoGate, NoMemory};
use std::env;
use std::io::ErrorKind;
use std::process::ExitCode;

/// The status of words that have no form.
const USAGE: u8 = 1;

/// The status of settings that are refused.
const REFUSED: u8 = 2;

// The words of the command line. None where one is not UTF-8: that is a faulty line, which has no
// form. `NoMemory` comes only for want of memory.
fn words_of(rt: &HostRuntime) -> Result<Vec<String>, NoMemory> {
    let mut words = Vec::new(rt.alloc());
    match env::args(rt) {
        Ok(args) => {
            for word in args {
                words.push(word)?;
            }
        }
        Err(error) if error.kind() == ErrorKind::OutOfMemory => return Err(NoMemory),
        Err(_) => {}
    }
    Ok(words)
}

fn main(rt: HostRuntime) -> ExitCode {
    let fault = PrintFault::new();
    let mut print = StdPrint::new(&rt, &fault);
    let Ok(words) = words_of(&rt) else {
        return ExitCode::from(no_memory(&mut print).code);
    };
    let Ok(held) = HeldFiles::new(rt.alloc()) else {
        return ExitCode::from(no_memory(&mut print).code);
    };
    let Ok(mut seats) = program_seats(rt.alloc(), &rt, &held, &fault) else {
        return ExitCode::from(no_memory(&mut print).code);
    };
    let mut text = FileText::new(&rt, held.settings());
    let status = run::<Unheard, _, _, _, _, _, _>(
        &rt,
        rt.alloc(),
        words.as_slice(),
        &mut text,
        seats.as_mut_slice(),
        &mut ProgramSink::new(&rt, &held, Progress::on(&rt.stderr())),
        &mut print,
        &NoGate,
    );
    if status.code == USAGE {
        say_usage(&rt, words.as_slice());
    }
    if status.code == REFUSED {
        text.say_refused(rt.alloc());
    }
    ExitCode::from(status.code)
}
