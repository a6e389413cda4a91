ghost use Rattle.std.specs.Prelude.{◌≤◌, vec_len, vec_capacity};

// The longest line that can be a frame, in digits.
pub const LINE_LIMIT: usize = 512;

// The line that is being read, as far as it need be held: a line of which one byte past the limit is held is refused as the whole is.
#[derive(Drop)]
pub struct LineBuffer {
    pub bytes: Vec<u8>,
    ghost few: { vec_len bytes ≤ 513 },
    ghost room: { 513 ≤ vec_capacity bytes },
}
