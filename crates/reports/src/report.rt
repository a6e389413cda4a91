use crate::modules::{Entries, Listed, Modules};
use crate::words::Counted;
use panels::intake::CallCounts;
use panels::session::Session;
use std::fmt;
use tables::refusal::Refusal;
use tables::table::Table;

// Why an export is not accepted.
#[derive(Clone, Copy, Debug, PartialEq, Eq)]
pub enum Unaccepted {
    // at a line, counted from 1
    Refused(Refusal, u32),
    // the tables, which no call follows, would be refused by the first call
    Unfinished(Refusal),
    OutOfMemory,
}

// The report of an export, as far as it was read.
#[derive(Clone, Copy)]
pub struct Report<'a> {
    pub session: &'a Session,
    pub outcome: Result<(), Unaccepted>,
}

// How many of each thing a table has, and its options.
#[derive(Clone, Copy)]
struct Summary<'a>(&'a Table);

impl fmt::Display for Summary<'_> {
    fn fmt<W: fmt::Write>(&self, f: &mut fmt::Formatter<W>) -> fmt::Result {
        let table = self.0;
        let modules = Counted(table.len(), "module", "modules");
        let records = Counted(table.records.len(), "import record", "import records");
        let entries = Counted(table.entries.len(), "entry", "entries");
        let listed = Counted(table.listed.len(), "listed module", "listed modules");
        writeln!(f, "  {modules}, {records}, {entries}, {listed}")?;
        let options = table.options();
        let splitting = if options.code_splitting { "on" } else { "off" };
        let order = options.chunk_modules_order;
        let runtime = options.runtime_module.0;
        writeln!(
            f,
            "  code splitting {splitting}, chunks ordered by {order}, runtime module {runtime}"
        )
    }
}

#[derive(Clone, Copy)]
struct Calls<'a>(&'a CallCounts);

impl fmt::Display for Calls<'_> {
    fn fmt<W: fmt::Write>(&self, f: &mut fmt::Formatter<W>) -> fmt::Result {
        let link = self.0.link;
        let unlink = self.0.unlink;
        let include = self.0.include;
        let exclude = self.0.exclude;
        let draw = self.0.draw;
        writeln!(f, "\nCalls")?;
        writeln!(
            f,
            "  {link} link, {unlink} unlink, {include} include, {exclude} exclude, {draw} draw"
        )
    }
}

// All that an accepted export holds.
#[derive(Clone, Copy)]
struct Accepted<'a>(&'a Session);

impl fmt::Display for Accepted<'_> {
    fn fmt<W: fmt::Write>(&self, f: &mut fmt::Formatter<W>) -> fmt::Result {
        let lines = self.0.lines;
        let intake = &self.0.intake;
        let table = &intake.export.table;
        let modules = Modules {
            table,
            included: &intake.export.included,
        };
        writeln!(f, "The export is accepted: {lines} lines read.")?;
        write!(f, "{}{modules}", Summary(table))?;
        write!(f, "{}{}", Entries(table), Listed(table))?;
        write!(f, "{}", Calls(&intake.calls))
    }
}

// A refusal's number and what it means.
#[derive(Clone, Copy)]
struct Reason(Refusal);

impl fmt::Display for Reason {
    fn fmt<W: fmt::Write>(&self, f: &mut fmt::Formatter<W>) -> fmt::Result {
        let number = u8::from(self.0);
        let words = self.0;
        writeln!(f, "  refusal {number}: {words}")
    }
}

impl fmt::Display for Report<'_> {
    fn fmt<W: fmt::Write>(&self, f: &mut fmt::Formatter<W>) -> fmt::Result {
        let lines = self.session.lines;
        match self.outcome {
            Ok(()) => write!(f, "{}", Accepted(self.session)),
            Err(Unaccepted::Refused(why, line)) => {
                writeln!(f, "The export is refused at line {line}.")?;
                write!(f, "{}", Reason(why))
            }
            Err(Unaccepted::Unfinished(why)) => {
                writeln!(
                    f,
                    "The export ends after {lines} lines, and its tables are refused."
                )?;
                write!(f, "{}", Reason(why))
            }
            Err(Unaccepted::OutOfMemory) => writeln!(
                f,
                "There is not enough memory to read the export, after {lines} lines."
            ),
        }
    }
}
