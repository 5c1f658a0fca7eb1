ghost use Rattle.std.specs.Prelude.{◌<◌, T, [], ◌∷◌};
ghost use Rattle.base.specs.Words.{Iff, In};
ghost use Rattle.labels.specs.House.{house};
ghost use Rattle.labels.specs.Order.{Greatest, Least, Means, JoinPrime};
ghost use Rattle.labels.specs.Houses.{house_lawful};

use crate::kind::LabelKind;
use crate::square::entry;

// The meet of a and b stands in row a, at place b.
// kept: constant tables, each of which the checker computes as a whole from its rule
const MEETS: [[u8; 12]; 12] = [
    [0, 0, 0, 0, 0, 0, 0, 0, 0, 0, 0, 0],
    [0, 1, 0, 1, 0, 1, 0, 1, 0, 1, 0, 1],
    [0, 0, 2, 2, 0, 0, 2, 2, 0, 0, 2, 2],
    [0, 1, 2, 3, 0, 1, 2, 3, 0, 1, 2, 3],
    [0, 0, 0, 0, 4, 4, 4, 4, 4, 4, 4, 4],
    [0, 1, 0, 1, 4, 5, 4, 5, 4, 5, 4, 5],
    [0, 0, 2, 2, 4, 4, 6, 6, 4, 4, 6, 6],
    [0, 1, 2, 3, 4, 5, 6, 7, 4, 5, 6, 7],
    [0, 0, 0, 0, 4, 4, 4, 4, 8, 8, 8, 8],
    [0, 1, 0, 1, 4, 5, 4, 5, 8, 9, 8, 9],
    [0, 0, 2, 2, 4, 4, 6, 6, 8, 8, 10, 10],
    [0, 1, 2, 3, 4, 5, 6, 7, 8, 9, 10, 11],
];

// The join of a and b stands in row a, at place b.
const JOINS: [[u8; 12]; 12] = [
    [0, 1, 2, 3, 4, 5, 6, 7, 8, 9, 10, 11],
    [1, 1, 3, 3, 5, 5, 7, 7, 9, 9, 11, 11],
    [2, 3, 2, 3, 6, 7, 6, 7, 10, 11, 10, 11],
    [3, 3, 3, 3, 7, 7, 7, 7, 11, 11, 11, 11],
    [4, 5, 6, 7, 4, 5, 6, 7, 8, 9, 10, 11],
    [5, 5, 7, 7, 5, 5, 7, 7, 9, 9, 11, 11],
    [6, 7, 6, 7, 6, 7, 6, 7, 10, 11, 10, 11],
    [7, 7, 7, 7, 7, 7, 7, 7, 11, 11, 11, 11],
    [8, 9, 10, 11, 8, 9, 10, 11, 8, 9, 10, 11],
    [9, 9, 11, 11, 9, 9, 11, 11, 9, 9, 11, 11],
    [10, 11, 10, 11, 10, 11, 10, 11, 10, 11, 10, 11],
    [11, 11, 11, 11, 11, 11, 11, 11, 11, 11, 11, 11],
];

// Labels of three parts, 4 × sales + 2 × service + export, ordered part by part.
#[derive(Clone, Copy, Default, PartialEq, Eq, Debug)]
pub struct House;

impl House {
    pub fn new() -> House
        ensures { Means house house }
    {
        House
    }
}

impl LabelKind for House {
    ghost meaning = { λ _. house };

    ghost lawful = { λ k. house_lawful };

    fn size(&self) -> u64 {
        12
    }

    fn at_or_below(&self, a: u32, b: u32) -> bool {
        self.is_label(a)
            && self.is_label(b)
            && a / 4 <= b / 4
            && a / 2 % 2 <= b / 2 % 2
            && a % 2 <= b % 2
    }

    fn meet(&self, a: u32, b: u32) -> u32 {
        entry(&MEETS, a, b)
    }

    fn join(&self, a: u32, b: u32) -> u32 {
        entry(&JOINS, a, b)
    }

    fn top(&self) -> u32 {
        11
    }

    // The labels with one part above 0, or none, are admitted.
    fn admits(&self, user: u32) -> bool
        ensures prime { Iff (T result) (JoinPrime house user) }
        ensures which { Iff (T result) (In user (0 ∷ 1 ∷ 2 ∷ 4 ∷ 8 ∷ [])) }
    {
        self.is_label(user) && (user % 4 == 0 || user <= 2)
    }
}
