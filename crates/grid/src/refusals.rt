// What a call answers: done, or why it is refused, by document 01's rules.
ghost use Rattle.std.specs.Prelude.{◌≡◌};
ghost use Rattle.grid.specs.Answer.{refusal_number, refusal_place};

/// Document 01's refusals in the order of their numbers, 1 to 23, each with the place that its table names beside it.
#[derive(Clone, Copy, Debug, PartialEq, Eq)]
pub enum Refusal {
    /// 1: a side, or the product of the sides, is outside its range
    BadSides,
    /// 2: a lent slice is not of its exact length
    BadLength,
    /// 3: a setting, edge, origin, point or axis is out of range; of a profile's points the first such point, else 0
    BadSetting(usize),
    /// 4: a flag is above 3, or an outer cell is not wall; the lowest such cell
    BadFlag(usize),
    /// 5: fluid beside empty; the lowest such fluid cell
    BadLayer(usize),
    /// 6: another rule of a good state is broken; the lowest such cell, N for carry, poured or taken alone
    BadState(usize),
    /// 7: density or speed is out of range after streaming and gravity; the lowest such cell
    BadFlow(usize),
    /// 8: the next state breaks a rule that 6 stands for; the place as for 6
    BadNext(usize),
    /// 9: more than 1,000 steps
    BadSteps,
    /// 10: the record ends early or has bytes left over; the byte where the section's count stands, or where the rest begins
    BadEnd(usize),
    /// 11: a section's count is wrong; the section, 1 to 7
    BadCount(usize),
    /// 12: the room is smaller than what is to be written; the bytes needed
    BadRoom(usize),
    /// 13: a cell, column or point is outside the grid, or a start above N
    Outside,
    /// 14: a word of the index is not the one that the flags make, or the stored count is wrong
    BadIndex,
    /// 15: the cell of a pour or a take is not interface; the cell
    NotInterface(usize),
    /// 16: the amount, or what it would make of the mass or of a total, is out of range
    BadAmount,
    /// 17: a wall change at an outer cell, or where the cell is already as asked; the cell
    BadChange(usize),
    /// 18: a wall change with water in the way; the cell
    InTheWay(usize),
    /// 19: a header line of a height grid is unreadable; its line
    BadHeader(usize),
    /// 20: a row of a height grid is unreadable, or something follows the rows; its line
    BadRow(usize),
    /// 21: the list has room for fewer pools than there are; their number
    BadPools(usize),
    /// 22: a profile's list has not 1 to 2,000 points
    BadList,
    /// 23: a profile's chainage is not above the one before; the first such point
    BadChainage(usize),
}

pub type Answer = Result<(), Refusal>;

impl Refusal {
    /// Document 01's number of the rule.
    pub fn number(self) -> u8
        ensures { result ≡ refusal_number self }
    {
        match self {
            Refusal::BadSides => 1,
            Refusal::BadLength => 2,
            Refusal::BadSetting(_) => 3,
            Refusal::BadFlag(_) => 4,
            Refusal::BadLayer(_) => 5,
            Refusal::BadState(_) => 6,
            Refusal::BadFlow(_) => 7,
            Refusal::BadNext(_) => 8,
            Refusal::BadSteps => 9,
            Refusal::BadEnd(_) => 10,
            Refusal::BadCount(_) => 11,
            Refusal::BadRoom(_) => 12,
            Refusal::Outside => 13,
            Refusal::BadIndex => 14,
            Refusal::NotInterface(_) => 15,
            Refusal::BadAmount => 16,
            Refusal::BadChange(_) => 17,
            Refusal::InTheWay(_) => 18,
            Refusal::BadHeader(_) => 19,
            Refusal::BadRow(_) => 20,
            Refusal::BadPools(_) => 21,
            Refusal::BadList => 22,
            Refusal::BadChainage(_) => 23,
        }
    }

    /// The place beside it, 0 where document 01 names none.
    pub fn place(self) -> usize
        ensures { result ≡ refusal_place self }
    {
        match self {
            Refusal::BadSides
            | Refusal::BadLength
            | Refusal::BadSteps
            | Refusal::Outside
            | Refusal::BadIndex
            | Refusal::BadAmount
            | Refusal::BadList => 0,
            Refusal::BadSetting(place)
            | Refusal::BadFlag(place)
            | Refusal::BadLayer(place)
            | Refusal::BadState(place)
            | Refusal::BadFlow(place)
            | Refusal::BadNext(place)
            | Refusal::BadEnd(place)
            | Refusal::BadCount(place)
            | Refusal::BadRoom(place)
            | Refusal::NotInterface(place)
            | Refusal::BadChange(place)
            | Refusal::InTheWay(place)
            | Refusal::BadHeader(place)
            | Refusal::BadRow(place)
            | Refusal::BadPools(place)
            | Refusal::BadChainage(place) => place,
        }
    }
}
