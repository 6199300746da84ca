// Runs the job in the file that its one argument names, or from standard input.
#![tactic(auto)]

use anyhow::anyhow;
use job::{Lines, Runner};
use std::io::Read;
use std::process::ExitCode;
use std::{env, fs};

// Output is printed in pieces of about this many bytes.
const PIECE: usize = 65_536;

fn job_text(rt: &HostRuntime) -> anyhow::Result<Vec<u8>> {
    let mut args = env::args(rt)?;
    let _program = args.next();
    let Some(path) = args.next() else {
        let mut text = Vec::new(rt.alloc());
        rt.stdin().read_to_end(&mut text)?;
        return Ok(text);
    };
    if args.next().is_some() {
        return Err(anyhow!("usage: cribkite [JOB]"));
    }
    Ok(fs::read(rt, path.as_str())?)
}

// Prints the answers as they come; a fault goes to standard error and ends the job.
fn run(rt: &HostRuntime, text: &[u8]) -> anyhow::Result<ExitCode> {
    let mut runner = Runner::new(rt.alloc());
    let mut out = String::new(rt.alloc());
    for line in Lines::new(text) {
        if let Err(fault) = runner.run_line(line, &mut out) {
            rt.print(out.as_str())?;
            rt.eprintln(fault)?;
            return Ok(ExitCode::FAILURE);
        }
        if out.len() > PIECE {
            rt.print(out.as_str())?;
            out.clear();
        }
    }
    rt.print(out.as_str())?;
    Ok(ExitCode::SUCCESS)
}

fn main(rt: HostRuntime) -> anyhow::Result<ExitCode> {
    let text = job_text(&rt)?;
    run(&rt, text.as_slice())
}
