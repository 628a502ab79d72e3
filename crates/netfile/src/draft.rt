ghost use Rattle.std.specs.Prelude.{◌≡◌, ℕ, ◌+◌, ◌^◌, ◌<◌, Some, MatchResult};
ghost use Rattle.network.specs.Points.{entry_of};
ghost use Rattle.network.specs.Tables.{table_of, tables_of};
ghost use Rattle.network.specs.declared.refusal.Refusal.TheVariants.{Misplaced};
ghost use Rattle.netfile.specs.Records.{item_of, point, table, pair, end};
ghost use Rattle.netfile.specs.Reading.{start, last_table, objection_to, objection, after, allow_last};
ghost use Rattle.netfile.specs.Drafts.{state_of, ended, when_more, unless_refused};

use crate::record::{Expectation, Record};
use network::{Point, Refusal, Table, numbering};
use std::alloc::{AllocError, Global};

// What the head announces.
// Both are 0 until the head has come, as the definition `start` says: an `Option` would be opened at each use, where it is never missing.
#[derive(Clone, Copy, Debug, PartialEq, Eq)]
pub struct Announced {
    points: usize,
    tables: usize,
}

// What the records so far have said, and what may come next.
#[derive(Drop)]
pub struct Draft {
    pub expect: Expectation,
    pub announced: Announced,
    pub points: Vec<Point>,
    pub tables: Vec<Table>,
    pub pairs: usize,
}

// Allows one more pair of the last table, where there is one.
fn allow_last(tables: &mut Vec<Table>, low: usize, high: usize)
    ensures { tables_of tables.new.items ≡ allow_last (tables_of tables.old.items) low high }
{
    if let Some(table) = tables.last_mut() {
        table.allow(low, high);
    }
}

impl Draft {
    // Before the first record.
    pub(crate) fn new(heap: Global) -> Draft
        ensures { state_of result ≡ start }
    {
        let announced = Announced {
            points: 0,
            tables: 0,
        };
        Draft {
            expect: Expectation::Start,
            announced,
            points: Vec::new(heap),
            tables: Vec::new(heap),
            pairs: 0,
        }
    }

    // Whether the end record has come.
    pub(crate) fn finished(&self) -> bool
        ensures { result ≡ ended self.now.expect }
    {
        self.expect == Expectation::Nothing
    }

    // The table that the last table record began.
    fn last_table(&self) -> Table
        ensures { table_of result ≡ last_table (state_of self.now) }
    {
        // a table with no pair stands for a missing one, as the definition has it: no file comes to it, and an `Option` would need an arm that says so
        self.tables
            .last()
            .copied()
            .unwrap_or_else(|| Table::new(0, 0))
    }

    // Refuses a pair of the last table with which something is wrong.
    fn pair_objection(&self, low: usize, high: usize) -> Result<(), Refusal>
        ensures { result ≡ unless_refused (objection_to (state_of self.now) (pair low high)) }
    {
        let table = self.last_table();
        let lows = numbering::count(&self.points, table.low());
        let highs = numbering::count(&self.points, table.high());
        if low >= lows || high >= highs {
            return Err(Refusal::MissingValue);
        }
        if table.allows(low, high) {
            return Err(Refusal::RepeatedPair);
        }
        Ok(())
    }

    // Refuses a table after all points with which something is wrong.
    fn table_objection(&self, low: u8, high: u8) -> Result<(), Refusal>
        ensures { result ≡ unless_refused (when_more (state_of self.now) (objection_to (state_of self.now) (table low high)) (Some Misplaced)) }
    {
        if self.tables.len() >= self.announced.tables {
            Err(Refusal::Misplaced)
        } else if (high as usize) < self.points.len() {
            Ok(())
        } else {
            Err(Refusal::MissingPoint)
        }
    }

    // Refuses the end after all points where something is wrong with it.
    fn end_objection(&self, pairs: usize) -> Result<(), Refusal>
        ensures { result ≡ unless_refused (when_more (state_of self.now) (Some Misplaced) (objection_to (state_of self.now) (end pairs))) }
    {
        if self.tables.len() < self.announced.tables {
            Err(Refusal::Misplaced)
        } else if pairs == self.pairs {
            Ok(())
        } else {
            Err(Refusal::WrongCount)
        }
    }

    // The network layer: refuses a record with which something is wrong here.
    pub(crate) fn objection(&self, next: Record) -> Result<(), Refusal>
        ensures { result ≡ unless_refused (objection (state_of self.now) (item_of next)) }
    {
        match (self.expect, next) {
            (Expectation::Start, Record::Head { .. }) => Ok(()),
            (Expectation::Points, Record::Point(_)) => Ok(()),
            (Expectation::Tables, Record::Table { low, high }) => self.table_objection(low, high),
            (Expectation::Tables, Record::End { pairs }) => self.end_objection(pairs),
            (Expectation::Pairs, Record::Table { low, high }) => self.table_objection(low, high),
            (Expectation::Pairs, Record::Pair { low, high }) => self.pair_objection(low, high),
            (Expectation::Pairs, Record::End { pairs }) => self.end_objection(pairs),
            _ => Err(Refusal::Misplaced),
        }
    }

    // Takes a point over.
    fn take_point(&mut self, next: Point) -> Result<(), AllocError>
        ensures { MatchResult result (λ _. state_of self.new ≡ after (state_of self.old) (point (entry_of next))) (λ _. state_of self.new ≡ state_of self.old) }
    {
        self.points.push(next)?;
        self.expect = if self.points.len() >= self.announced.points {
            Expectation::Tables
        } else {
            Expectation::Points
        };
        Ok(())
    }

    // Takes a table over.
    fn take_table(&mut self, low: u8, high: u8) -> Result<(), AllocError>
        ensures { MatchResult result (λ _. state_of self.new ≡ after (state_of self.old) (table low high)) (λ _. state_of self.new ≡ state_of self.old) }
    {
        self.tables.push(Table::new(low, high))?;
        self.expect = Expectation::Pairs;
        Ok(())
    }

    // Takes a pair over.
    fn take_pair(&mut self, low: usize, high: usize)
        requires { self.old.pairs + 1 < 2 ^ 64 }
        ensures { state_of self.new ≡ after (state_of self.old) (pair low high) }
    {
        allow_last(&mut self.tables, low, high);
        self.pairs += 1;
        self.expect = Expectation::Pairs;
    }

    // Takes over what a record says.
    pub(crate) fn take(&mut self, next: Record) -> Result<(), AllocError>
        requires { self.old.pairs + 1 < 2 ^ 64 }
        ensures { MatchResult result (λ _. state_of self.new ≡ after (state_of self.old) (item_of next)) (λ _. state_of self.new ≡ state_of self.old) }
    {
        match next {
            Record::Head { points, tables } => {
                self.announced = Announced { points, tables };
                self.expect = Expectation::Points;
                Ok(())
            }
            Record::Point(point) => self.take_point(point),
            Record::Table { low, high } => self.take_table(low, high),
            Record::Pair { low, high } => {
                self.take_pair(low, high);
                Ok(())
            }
            Record::End { .. } => {
                self.expect = Expectation::Nothing;
                Ok(())
            }
        }
    }
}
