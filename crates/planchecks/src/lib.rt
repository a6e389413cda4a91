// Plans over both stores: what each edit leaves of small panels, the refusals, and a long run of edits against paths followed plainly. It uses exports, plans, rows, sets, squares, stores and tables.
#![tactic(auto)]

#[cfg(test)]
mod creation;
#[cfg(test)]
mod edits;
#[cfg(test)]
mod long_run;
#[cfg(test)]
mod samples;
#[cfg(test)]
mod steps;
