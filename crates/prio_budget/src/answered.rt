use crate::Look;

/// From this stamp on a budget grants nothing more.
pub const SPENT_STAMP: u32 = 2_147_483_648;

/// The answer to an ask for bytes.
#[derive(Debug, PartialEq, Eq, Drop)]
pub enum Answered<C> {
    Granted { charge: C, look: Look },
    /// The bytes would pass the mark.
    Past { look: Look },
    /// The stamps are used up.
    Spent { look: Look },
    /// A shared budget changed between the two; the ask may be made again. A budget of one thread never answers so.
    Moved { first: Look, look: Look },
}
