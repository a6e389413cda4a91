use crate::intake::Intake;
use crate::line::LineBuffer;

// An export that comes byte by byte: what its lines have told, the line that has begun, and how many lines have ended.
#[derive(Drop)]
pub struct Session {
    pub intake: Intake,
    pub held: LineBuffer,
    pub lines: u32,
}
