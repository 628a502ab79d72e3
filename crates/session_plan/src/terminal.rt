use anyhow::Result;
use calls::{Call, Exchange};
use network::Network;
use runs::Caller;
use session::Session;
use session_commands::command::Command;
use session_commands::{answers, command};
use std::io;
use std::io::{BufRead, BufReader, Split, Stdin, Write};

// Commands from standard input and answers to standard output. What it had and heard is not in a contract's reach.
#[derive(Drop)]
pub struct Terminal<'a> {
    rt: &'a HostRuntime,
    network: &'a Network,
    lines: Split<BufReader<Stdin>>,
    // how many lines may still be read
    left: u64,
    failed: Option<anyhow::Error>,
}

impl<'a> Terminal<'a> {
    // The terminal of a program that has read a network.
    pub(crate) fn new(rt: &'a HostRuntime, network: &'a Network) -> Result<Terminal<'a>> {
        Ok(Terminal {
            rt,
            network,
            lines: BufReader::new(rt.alloc(), rt.stdin())?.split(rt.alloc(), b'\n'),
            left: u64::MAX,
            failed: None,
        })
    }

    // What went wrong, if anything did.
    pub(crate) fn finish(self) -> Result<()> {
        match self.failed {
            Some(error) => Err(error),
            None => Ok(()),
        }
    }

    // Answers the question for the halves of a table.
    fn answer_half(&self, table: usize) -> Result<()> {
        match computed::half_scores(self.network, table) {
            Ok(scores) => self.rt.println(scores)?,
            Err(refusal) => self.rt.println(refusal)?,
        }
        Ok(())
    }

    // The call that a line makes, or nothing where the line was answered here.
    fn hear(&self, session: &Session, line: io::Result<Vec<u8>>) -> Result<Option<Call>> {
        let rt = self.rt;
        let heap = rt.alloc();
        match command::parse(&line?) {
            Some(Command::Ask(call)) => return Ok(Some(call)),
            Some(Command::Page) => rt.stdout().write_all(&page::page(heap, session)?)?,
            Some(Command::Half(table)) => self.answer_half(table)?,
            Some(Command::Plan(command)) => {
                rt.print(commands::answers::answer(heap, self.network, command)?)?;
            }
            None => rt.println("what?")?,
        }
        Ok(None)
    }

    // Writes the answer to a call.
    fn tell(&self, exchange: Exchange) -> Result<()> {
        self.rt
            .println(answers::answer(self.rt.alloc(), exchange)?)?;
        Ok(())
    }
}

impl<'a> Caller for Terminal<'a> {
    ghost heard = { λ _ _. Unit {0} };

    ghost asking = { λ _ _ _. Unit {0} };

    ghost finished = { λ _ _. Unit {0} };

    ghost left = { λ t. t.left };

    fn next(&mut self, session: &Session) -> Option<Call> {
        // no `for`: it would hold the lines, while `hear` is asked of the whole terminal
        while self.left > 0 && self.failed.is_none() {
            self.left -= 1;
            let line = self.lines.next()?;
            match self.hear(session, line) {
                Ok(Some(call)) => return Some(call),
                Ok(None) => {}
                Err(error) => self.failed = Some(error),
            }
        }
        None
    }

    fn answered(&mut self, exchange: Exchange) {
        if let Err(error) = self.tell(exchange) {
            self.failed = Some(error);
        }
    }
}
