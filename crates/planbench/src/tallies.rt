use std::fmt;
use std::ops::AddAssign;
use std::time::Duration;

// Edits of one kind: how many were accepted, how many modules they moved, and how long they took.
#[derive(Clone, Copy, Default)]
pub(crate) struct Tally {
    pub(crate) accepted: u32,
    pub(crate) moved: u32,
    pub(crate) time: Duration,
}

impl AddAssign for Tally {
    fn add_assign(&mut self, other: Tally) {
        self.accepted = self.accepted.saturating_add(other.accepted);
        self.moved = self.moved.saturating_add(other.moved);
        self.time = self.time.saturating_add(other.time);
    }
}

// How many edits in a second, with a tenth.
impl fmt::Display for Tally {
    fn fmt<W: fmt::Write>(&self, f: &mut fmt::Formatter<W>) -> fmt::Result {
        let tenths = u128::from(self.accepted) * 10_000_000_000 / self.time.as_nanos().max(1);
        let whole = tenths / 10;
        let tenth = tenths % 10;
        write!(f, "{whole:>7}.{tenth} edits per second")
    }
}

// What was measured of one shape over one store.
#[derive(Clone, Copy)]
pub(crate) struct Measured {
    pub(crate) pairs: u32,
    pub(crate) creation: Duration,
    pub(crate) unlink: Tally,
    pub(crate) exclude: Tally,
    pub(crate) again: Tally,
    pub(crate) link: Tally,
    pub(crate) include: Tally,
}

// How many edits were accepted and how many modules they moved, of all kinds.
#[derive(Clone, Copy)]
pub(crate) struct Counts<'a>(pub(crate) &'a Measured);

impl fmt::Display for Counts<'_> {
    fn fmt<W: fmt::Write>(&self, f: &mut fmt::Formatter<W>) -> fmt::Result {
        let measured = self.0;
        let mut all = measured.unlink;
        all += measured.exclude;
        all += measured.again;
        all += measured.link;
        all += measured.include;
        let pairs = measured.pairs;
        let accepted = all.accepted;
        let moved = all.moved;
        writeln!(
            f,
            "{pairs} pairs, {accepted} edits accepted, {moved} modules moved"
        )
    }
}

// How quick the creation and the edits of each kind were.
#[derive(Clone, Copy)]
pub(crate) struct Rates<'a>(pub(crate) &'a Measured);

impl fmt::Display for Rates<'_> {
    fn fmt<W: fmt::Write>(&self, f: &mut fmt::Formatter<W>) -> fmt::Result {
        let measured = self.0;
        let pairs = measured.pairs;
        let micros = measured.creation.as_micros();
        writeln!(f, "{pairs} pairs, a plan created in {micros} microseconds")?;
        let kinds = [
            ("link", measured.link),
            ("unlink", measured.unlink),
            ("include", measured.include),
            ("exclude", measured.exclude),
            ("exclude again", measured.again),
        ];
        for (name, tally) in kinds {
            writeln!(f, "  {name:<13} {tally}")?;
        }
        Ok(())
    }
}
