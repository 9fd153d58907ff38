// Why a call, a line, or a list of racks is refused: the rows of 01 and 02.
ghost use Rattle.std.specs.Prelude.{◌≡◌};
ghost use Rattle.board.specs.Refusals.{number_of};

// A row of the table. Its number is the variant's.
#[derive(Clone, Copy, Debug, PartialEq, Eq)]
pub enum Refusal {
    // The depth is above the greatest.
    TooDeep = 1,
    // The board is not sound.
    NotSound = 2,
    // The slot is past the last of the book.
    BookEnded = 3,
    // The ticket is not above the highest so far.
    TicketNotHigher = 4,
    // The laxity is not from 1 to the longest.
    LaxityOutside = 5,
    // The grade is not below 2^D.
    GradeTooHigh = 6,
    // As many jobs as a slot takes were admitted in this slot.
    SlotFull = 7,
    // The lent list has not an entry for every place.
    ListTooShort = 8,
    // The tally has no count for such an event.
    NoSuchEvent = 9,
    // The count has its greatest value.
    CountFull = 10,
    // The line has more bytes than a line may have.
    LineTooLong = 11,
    // The first field is no letter of a line.
    NoLetter = 12,
    // The line has not as many fields as its letter asks for.
    FieldCount = 13,
    // A field is not a number.
    NotANumber = 14,
    // The line opens while a board is open, or is for one while none is.
    NotNow = 15,
    // Figures that the sheet cannot show.
    BadFigures = 16,
    // The ticket is not on the board, or was admitted in this slot.
    NotToWithdraw = 17,
    // More jobs than a list of racks may have.
    TooManyJobs = 18,
    // A job of the list has no window.
    NoWindow = 19,
}

impl Refusal {
    // The number of the row.
    pub fn number(self) -> u8
        ensures { result ≡ number_of self }
    {
        self as u8
    }
}
