use anyhow::{Error, Result, anyhow};
use std::env;
use theory::{Encoding, UnknownEncoding};

// What the program was started with: a file's name, and the kind of clauses to open its session over.
#[derive(Drop)]
pub struct Options {
    pub file: String,
    pub encoding: Encoding,
}

// How the program is started.
fn usage() -> Error {
    anyhow!("usage: session_plan FILE [support|direct]")
}

// The encoding of a name: support where no name is given.
fn encoding_of(name: Option<String>) -> Result<Encoding> {
    let Some(name) = name else {
        return Ok(Encoding::Support);
    };
    match Encoding::try_from(name.as_bytes()) {
        Ok(Encoding::MinimalSupport) | Err(UnknownEncoding) => Err(usage()),
        Ok(encoding) => Ok(encoding),
    }
}

impl Options {
    // The words of the command line.
    pub(crate) fn read(rt: &HostRuntime) -> Result<Options> {
        let mut words = env::args(rt)?.skip(1);
        match (words.next(), words.next(), words.next()) {
            (Some(file), kind, None) => Ok(Options {
                file,
                encoding: encoding_of(kind)?,
            }),
            _ => Err(usage()),
        }
    }
}
