// The numbers of a part.
ghost use Rattle.std.specs.Prelude.{◌≤◌};

use std::array;

// The numbers of some text in their order, at most 24.
#[derive(Clone, Copy)]
pub struct Numbers {
    pub values: [Option<u64>; 24],
}

impl Numbers {
    // The number at a position, counted from 0; 0 where there is none.
    pub fn get(self, position: usize) -> u64 {
        self.values.get(position).copied().flatten().unwrap_or(0)
    }

    // How many there are. (There are never more than 24; `min` says so where they are added up.)
    pub fn count(self) -> usize
        ensures { result ≤ 24 }
    {
        self.values.iter().flatten().count().min(24)
    }

    // The number at a position in 32 bits.
    pub fn get32(self, position: usize) -> u32 {
        (self.get(position) % 4294967296) as u32
    }
}

// The numbers in decimal digits of a part; every other byte stands between two.
pub fn numbers_of(part: &[u8]) -> Numbers {
    let mut words = part
        .split(|b| !b.is_ascii_digit())
        .filter(|word| !word.is_empty());
    Numbers {
        values: array::from_fn(|_| number(words.next()?)),
    }
}

// A number in decimal digits; none where it has more than 64 bits.
fn number(digits: &[u8]) -> Option<u64> {
    str::from_utf8(digits).ok()?.parse().ok()
}
