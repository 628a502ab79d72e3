ghost use Rattle.std.specs.Prelude.{◌≡◌, ◌++◌, IfOk, string_bytes, OnOk};
ghost use Rattle.std.specs.List.{flat_map};
ghost use Rattle.theory.specs.Encodings.{table_clauses, clauses};
ghost use Rattle.network.specs.Contents.{meaning};
ghost use Rattle.network.specs.Points.{counts_of};
ghost use Rattle.network.specs.Tables.{table_of};
ghost use Rattle.commands.specs.AnswerTexts.{answer_text};
ghost use Rattle.commands.specs.Texts.{clause_text, clauses_text};

use crate::command::Command;
use crate::text;
use books::ClauseBook;
use computed::ComputedBook;
use network::{Network, PointList, Table};
use std::alloc::{AllocError, Global};
use theory::Encoding;

// Adds a line for each clause that an encoding has for a table.
fn push_table(
    out: &mut String,
    heap: Global,
    points: &PointList,
    table: &Table,
    encoding: Encoding,
) -> Result<(), AllocError>
    ensures { OnOk result (string_bytes out.new ≡ string_bytes out.old ++ flat_map clause_text (table_clauses encoding (counts_of points.now) (table_of table.now))) }
{
    let mut lists = Vec::new(heap);
    encodings::of_table(heap, points, table, encoding, &mut lists)?;
    text::push_clauses(out, &lists.as_slice())
}

// How many clauses a network has in an encoding, and then a line a clause.
fn clauses(heap: Global, network: &Network, encoding: Encoding) -> Result<String, AllocError>
    ensures { IfOk result (λ s. string_bytes s ≡ clauses_text (clauses encoding (meaning network.now))) }
{
    let count = ComputedBook::new(network, encoding).count();
    let points = network.points();
    let mut out = format!(in heap; "{count}\n")?;
    let of_points = encodings::of_points(heap, points)?;
    text::push_clauses(&mut out, &of_points.as_slice())?;
    // a table at a time: a computed book would look for each literal from the first clause on, and a list of all takes more memory than the text
    for table in network.tables() {
        push_table(&mut out, heap, points, table, encoding)?;
    }
    Ok(out)
}

// What is written for the answer to a command, with the end of its last line.
pub fn answer(heap: Global, network: &Network, command: Command) -> Result<String, AllocError>
    ensures { IfOk result (λ s. string_bytes s ≡ answer_text (meaning network.now) command) }
{
    match command {
        Command::Number(n) => {
            let mut line = text::place(heap, network.points().place(n))?;
            line.push_str("\n")?;
            Ok(line)
        }
        Command::Clauses(encoding) => clauses(heap, network, encoding),
    }
}
