// Reads a network file, opens a session over its clauses, and answers commands, one a line.
#![tactic(auto)]

mod options;
mod terminal;

use anyhow::Result;
use clause_store::OpenError;
use computed::ComputedBook;
use netfile::ReadError;
use network::Network;
use options::Options;
use std::fs;
use terminal::Terminal;
use theory::Encoding;

// Plays what is asked on standard input over a network's clauses.
fn play<'a>(rt: &'a HostRuntime, network: &'a Network, encoding: Encoding) -> Result<()> {
    let book = ComputedBook::new(network, encoding);
    let mut terminal = Terminal::new(rt, network)?;
    match runs::play(rt.alloc(), network.points(), &book, &mut terminal) {
        Ok(()) => terminal.finish(),
        Err(OpenError::Unfit) => {
            rt.println(OpenError::Unfit)?;
            Ok(())
        }
        Err(error) => Err(error.into()),
    }
}

fn run(rt: &HostRuntime) -> Result<()> {
    // as in plan, whose words and answers differ: a shared function would be handed both as closures
    let options = Options::read(rt)?;
    let bytes = fs::read(rt, &options.file)?;
    match netfile::read(rt.alloc(), &bytes) {
        Ok(network) => play(rt, &network, options.encoding),
        Err(ReadError::Refused(fault)) => {
            rt.println(fault)?;
            Ok(())
        }
        Err(error) => Err(error.into()),
    }
}

fn main(rt: HostRuntime) -> Result<()> {
    run(&rt)
}
