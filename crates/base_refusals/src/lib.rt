// Why a call is refused: one type for every answer, and its reasons, each with its number. include/bai2.h has the same numbers and explains each.

#![tactic(auto)]

ghost use Rattle.std.specs.Prelude.{◌≡◌};
ghost use Rattle.base_refusals.specs.RefusalMeaning.{reason_number};

use base_quantities::Place;

// The reasons, by the numbers that the rules give them.
#[derive(Clone, Copy, PartialEq, Eq)]
pub enum Reason {
    EmptyFile = 1,
    FileTooLong = 2,
    LineTooLong = 3,
    ByteNotAllowed = 4,
    NoRecordCode = 5,
    RecordOutOfOrder = 6,
    LineBadlyEnded = 7,
    WrongField = 8,
    WrongVersion = 9,
    AmountsTooLarge = 10,
    WrongTotal = 11,
    WrongCount = 12,
    WrongRecordCount = 13,
    SumTooLarge = 14,
    NoRoom = 15,
    NotAName = 16,
    NoSuchPart = 17,
    ResultTooLong = 18,
    OutOfTurn = 19,
    WrongFieldGiven = 20,
}

// A refusal: its reason, and the place of the byte that shows it.
#[derive(Clone, Copy)]
pub struct Refusal {
    pub reason: Reason,
    pub place: Place,
}

impl Reason {
    // The reason's number.
    pub fn number(self) -> u64
        ensures { result ≡ reason_number self }
    {
        self as u64
    }

    // A refusal for this reason that the byte at this place shows.
    pub fn at(self, place: Place) -> Refusal
        ensures { result ≡ record { reason = self; place = place } }
    {
        Refusal {
            reason: self,
            place,
        }
    }

    // A refusal for this reason that no byte shows: its place is 0.
    pub fn nowhere(self) -> Refusal
        ensures { result ≡ record { reason = self; place = record { 0 = 0 } } }
    {
        self.at(Place(0))
    }
}
