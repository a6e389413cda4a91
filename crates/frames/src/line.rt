ghost use Rattle.std.specs.Prelude.{◌≡◌, Ok};
ghost use Rattle.frames.specs.Text.{letter_of};

// A line of digits with a letter that fits its length; what it says is settled but for its fields. The letter is the first byte as a character, which the frames are told by.
#[derive(Clone, Copy)]
pub(crate) struct Line<'a> {
    pub(crate) digits: &'a [u8],
    pub(crate) letter: char,
    ghost known: { letter_of digits.now ≡ Ok letter },
}
