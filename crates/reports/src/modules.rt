// A table's modules, entries and listed modules, line by line.
use crate::words::Quoted;
use std::fmt;
use tables::included::Included;
use tables::index::ModuleIdx;
use tables::module::ImportRecord;
use tables::table::Table;

// A module's number and id.
#[derive(Clone, Copy)]
pub(crate) struct Named<'a>(pub &'a Table, pub ModuleIdx);

impl fmt::Display for Named<'_> {
    fn fmt<W: fmt::Write>(&self, f: &mut fmt::Formatter<W>) -> fmt::Result {
        let number = self.1.0;
        let id = Quoted(self.0.id(self.1));
        write!(f, "{number} {id}")
    }
}

// What a record resolves to.
#[derive(Clone, Copy)]
struct Target<'a>(&'a Table, &'a ImportRecord);

impl fmt::Display for Target<'_> {
    fn fmt<W: fmt::Write>(&self, f: &mut fmt::Formatter<W>) -> fmt::Result {
        match self.1.resolved_module {
            Some(m) => {
                let name = Named(self.0, m);
                write!(f, "module {name}")
            }
            None => write!(f, "nothing in the table"),
        }
    }
}

// What an export says of a module beside its id and its records.
#[derive(Clone, Copy)]
struct Traits<'a>(&'a Table, ModuleIdx, bool);

impl fmt::Display for Traits<'_> {
    fn fmt<W: fmt::Write>(&self, f: &mut fmt::Formatter<W>) -> fmt::Result {
        let table = self.0;
        let m = self.1;
        let kind = if table.is_external(m) {
            "external"
        } else {
            "normal"
        };
        let marked = if self.2 { "included" } else { "not included" };
        let wrap = table.wrap_kind(m);
        let order = table.exec_order(m);
        write!(f, "{kind}, {marked}, {wrap}, execution order {order}")?;
        if table.is_json(m) {
            write!(f, ", JSON")?;
        }
        if table.is_order_sensitive(m) {
            write!(f, ", order-sensitive")?;
        }
        Ok(())
    }
}

// All modules of an export, with their records.
#[derive(Clone, Copy)]
pub(crate) struct Modules<'a> {
    pub table: &'a Table,
    pub included: &'a Included,
}

impl fmt::Display for Modules<'_> {
    fn fmt<W: fmt::Write>(&self, f: &mut fmt::Formatter<W>) -> fmt::Result {
        writeln!(f, "\nModules")?;
        for (i, _) in (0..u16::MAX).zip(&self.table.modules) {
            let m = ModuleIdx(i);
            let name = Named(self.table, m);
            let traits = Traits(self.table, m, self.included.contains(m));
            writeln!(f, "  module {name}: {traits}")?;
            for (r, record) in self.table.import_records(m).iter().enumerate() {
                let kind = record.kind;
                let target = Target(self.table, record);
                writeln!(f, "      record {r}: {kind} of {target}")?;
            }
        }
        Ok(())
    }
}

#[derive(Clone, Copy)]
pub(crate) struct Entries<'a>(pub &'a Table);

impl fmt::Display for Entries<'_> {
    fn fmt<W: fmt::Write>(&self, f: &mut fmt::Formatter<W>) -> fmt::Result {
        writeln!(f, "\nEntries")?;
        for (e, entry) in self.0.entries().iter().enumerate() {
            let name = Named(self.0, entry.module);
            let kind = entry.kind;
            writeln!(f, "  entry {e}: module {name}, {kind}")?;
        }
        Ok(())
    }
}

#[derive(Clone, Copy)]
pub(crate) struct Listed<'a>(pub &'a Table);

impl fmt::Display for Listed<'_> {
    fn fmt<W: fmt::Write>(&self, f: &mut fmt::Formatter<W>) -> fmt::Result {
        writeln!(f, "\nListed modules, in order")?;
        for m in self.0.listed() {
            let name = Named(self.0, *m);
            writeln!(f, "  module {name}")?;
        }
        Ok(())
    }
}
