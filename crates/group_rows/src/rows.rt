// Which row is met.
ghost use Rattle.std.specs.Prelude.{◌≡◌};
ghost use Rattle.group_rows.specs.Found.{found_at};
ghost use Rattle.group_rows.specs.Rows.{row_in};

use crate::Row;
use crate::causes::{Cause, Facts};
use group_record::states::State;
use group_record::states::State::{S1, S3, S4, S5};

// The row that is met in a state.
#[tactic(auto, unfolding(crate::specs::Rows::row_in))]
pub(crate) fn row_in(state: State, cause: Cause, facts: Facts) -> Option<Row>
    ensures met { result ≡ row_in state cause facts }
    ensures found { result ≡ found_at state cause facts }
{
    match (cause, state) {
        (Cause::UserStarts, S1) => Some(Row::G1),
        (Cause::UserAccepts, S5) => Some(Row::G5),
        (Cause::UserAccepts, S4) => Some(Row::G6),
        (Cause::UserRejects | Cause::Tfg4Expires, S4 | S5) => Some(Row::G7),
        (Cause::UserLeaves | Cause::Tfg6Expires, S3) => Some(Row::G8),
        (Cause::UserRaises, S3) if facts.better_rank => Some(Row::G9),
        (Cause::Tfg2Expires, S3) => Some(Row::G2),
        (Cause::AnnouncementHeard, S1) if facts.acknowledgement => Some(Row::G3),
        (Cause::AnnouncementHeard, S1) => Some(Row::G4),
        (Cause::AnnouncementHeard, S3) if facts.same => Some(Row::G11),
        (Cause::AnnouncementHeard, S3) if facts.better => Some(Row::G10),
        _ => None,
    }
}
