// Exports at their boundaries, read byte by byte, and the lines that answer: both are compared with what the rules say. It uses panels, exports, lines, sets and tables.
#![tactic(auto)]

#[cfg(test)]
mod boundaries;
#[cfg(test)]
mod exports_read;
#[cfg(test)]
mod lines_read;
#[cfg(test)]
mod lines_written;
