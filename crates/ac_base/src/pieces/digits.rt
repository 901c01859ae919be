//! The decimal digits of a number, made without memory.
ghost use Rattle.std.specs.Prelude.{◌≡◌, ◌≤◌, []};
ghost use Rattle.std.specs.Fmt.{decimal};

/// The decimal digits of a number, in a room of their own.
#[derive(Clone, Copy)]
pub struct Digits {
    room: [u8; 10],
    start: usize,
    ghost within: { start ≤ 10 },
}

impl Digits {
    ghost use Rattle.ac_base.specs.Writing.Digits.{digits_shown};

    /// The decimal digits of a number, without zeros before it.
    pub fn of(number: u32) -> Digits
        ensures { digits_shown result ≡ decimal number }
    {
        let mut room = [b'0'; 10];
        let mut start = 9;
        room[9] = b'0' + (number % 10) as u8;
        let mut rest = number / 10;
        while rest > 0 {
            start -= 1;
            room[start] = b'0' + (rest % 10) as u8;
            rest /= 10;
        }
        Digits { room, start }
    }

    /// No digit at all.
    pub fn none() -> Digits
        ensures { digits_shown result ≡ [] }
    {
        Digits {
            room: [b'0'; 10],
            start: 10,
        }
    }

    /// The digits, as bytes of text.
    pub fn as_bytes(&self) -> &[u8]
        ensures { result.now ≡ digits_shown self.now }
    {
        &self.room[self.start..]
    }
}
