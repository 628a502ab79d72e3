// Reads a network file and answers questions about it, one a line.
#![tactic(auto)]

use anyhow::{Result, anyhow};
use commands::{answers, command};
use netfile::ReadError;
use network::Network;
use std::io::{BufRead, BufReader};
use std::{env, fs};

// Answers the lines of the input, to its end.
fn answer_all(rt: &HostRuntime, network: &Network) -> Result<()> {
    for line in BufReader::new(rt.alloc(), rt.stdin())?.split(rt.alloc(), b'\n') {
        match command::parse(&line?) {
            Some(command) => rt.print(answers::answer(rt.alloc(), network, command)?)?,
            None => rt.println("what?")?,
        }
    }
    Ok(())
}

// The file that the program was started with.
fn file_name(rt: &HostRuntime) -> Result<String> {
    let mut words = env::args(rt)?.skip(1);
    match (words.next(), words.next()) {
        (Some(name), None) => Ok(name),
        _ => Err(anyhow!("usage: plan FILE")),
    }
}

fn run(rt: &HostRuntime) -> Result<()> {
    // as in session_plan, whose words and answers differ: a shared function would be handed both as closures
    let name = file_name(rt)?;
    let bytes = fs::read(rt, &name)?;
    match netfile::read(rt.alloc(), &bytes) {
        Ok(network) => answer_all(rt, &network),
        Err(ReadError::Refused(fault)) => {
            rt.println(fault)?;
            Ok(())
        }
        Err(error) => Err(error.into()),
    }
}

fn main(rt: HostRuntime) -> Result<()> {
    run(&rt)
}
