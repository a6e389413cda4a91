// Where a reader stands: at the start, among tables or among calls. A reader also knows whether a module has come: no stage of its own, since it would take every letter that `Tables` takes.
#[derive(Clone, Copy)]
pub enum Stage {
    Start,
    Tables,
    Calls,
}

#[derive(Clone, Copy)]
pub struct Reader {
    pub stage: Stage,
    pub any_module: bool,
}
