ghost use Rattle.std.specs.Prelude.{◌≡◌};
ghost use Rattle.calls.specs.Cause.{number_of_cause};

// Why a call is refused.
#[derive(Clone, Copy, PartialEq, Eq)]
pub enum Cause {
    AxesOutOfRange,
    BudgetOutOfRange,
    StorageTooShort,
    AreaNotSound,
    NothingWanted,
    BlockWanted,
    ReadingsMiscounted,
    ReadingOutOfRange,
    PointPastBlock,
    PlaceNotActive,
}

// The number that the exports and the program's report give.
impl From<Cause> for u32 {
    ghost from_gives = { λ cause number. number ≡ number_of_cause cause };

    fn from(cause: Cause) -> u32 {
        match cause {
            Cause::AxesOutOfRange => 1,
            Cause::BudgetOutOfRange => 2,
            Cause::StorageTooShort => 3,
            Cause::AreaNotSound => 4,
            Cause::NothingWanted => 5,
            Cause::BlockWanted => 6,
            Cause::ReadingsMiscounted => 7,
            Cause::ReadingOutOfRange => 8,
            Cause::PointPastBlock => 9,
            Cause::PlaceNotActive => 11,
        }
    }
}
