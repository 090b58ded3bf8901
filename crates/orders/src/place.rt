ghost use Rattle.std.specs.Prelude.{◌≡◌, ◌%◌, ◌<◌};

// The place of a value in arrays of 16: its number.
#[derive(Clone, Copy, PartialEq, Eq)]
pub struct Place {
    pub number: u8,
    ghost small: { number < 16 },
}

// A number past 15 is taken modulo 16.
impl From<u8> for Place {
    ghost from_gives = { λ v p. p.number ≡ v % 16 };

    fn from(v: u8) -> Place {
        Place { number: v % 16 }
    }
}

impl From<usize> for Place {
    ghost from_gives = { λ v p. p.number ≡ v % 16 };

    fn from(v: usize) -> Place {
        Place {
            number: (v % 16) as u8,
        }
    }
}

impl Place {
    pub fn index(self) -> usize
        ensures { result ≡ self.number }
    {
        self.number as usize
    }
}
