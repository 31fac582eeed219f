// Why a call is refused.
ghost use Rattle.std.specs.Prelude.{◌≡◌};
ghost use Rattle.site.specs.Refusals.{number_of};

// Each refusal, by document 01's number.
#[derive(Clone, Copy, PartialEq, Eq)]
pub enum Refusal {
    WrongCells = 1,
    Unsound = 2,
    NoRecord = 3,
    IdQueued = 4,
    SlotsFull = 5,
    NumbersUsedUp = 6,
    OutOfTurn = 7,
    NotQueued = 8,
    ConfirmedAlready = 9,
    NoSuchClass = 10,
    NothingToDo = 11,
    NoSuchCell = 12,
    BadEvent = 13,
    IdKept = 14,
    NoClassNamed = 17,
    QueriesOpen = 18,
    QueriesUsedUp = 24,
}

impl Refusal {
    // The number of the refusal. It is not laid into its callers, where its cases would keep copies of the site apart.
    #[inline(never)]
    pub fn number(self) -> u8
        ensures { result ≡ number_of self }
    {
        self as u8
    }
}
