// Which row is met.
ghost use Rattle.std.specs.Prelude.{◌≡◌};
ghost use Rattle.private_rows.specs.Found.{setup_row, found_at};
ghost use Rattle.private_rows.specs.Rows.{row_in};

use crate::Row;
use crate::causes::{Cause, Facts};
use private_record::states::Phase;
use private_record::states::Phase::{P0, P1, P2Tfp1, P2Tfp2, P3, P4, P5Tfp2, P5Tfp4};

// The row that is met in a phase.
#[tactic(auto, unfolding(crate::specs::Rows::row_in))]
pub(crate) fn row_in(phase: Phase, cause: Cause, facts: Facts) -> Option<Row>
    ensures met { result ≡ row_in phase cause facts }
    ensures found { result ≡ found_at phase cause facts }
{
    match (cause, phase) {
        (Cause::UserStarts, P0 | P1) => Some(Row::R1),
        (Cause::UserEnds, P2Tfp1 | P2Tfp2) => Some(Row::R8),
        (Cause::UserEnds, P4) => Some(Row::R9),
        (Cause::UserAccepts, P5Tfp2) if facts.trusted => Some(Row::R23),
        (Cause::UserAccepts, P5Tfp2) => Some(Row::R24),
        (Cause::UserRejects, P5Tfp2) => Some(Row::R25),
        (Cause::Tfp1Expires, P2Tfp1) if facts.under => Some(Row::R2),
        (Cause::Tfp1Expires, P2Tfp1) => Some(Row::R3),
        (Cause::Tfp2Expires, P2Tfp2) => Some(Row::R7),
        (Cause::Tfp2Expires, P5Tfp2) => Some(Row::R26),
        (Cause::Tfp3Expires, P3) if facts.under => Some(Row::R10),
        (Cause::Tfp3Expires, P3) => Some(Row::R11),
        (Cause::Tfp4Expires, P5Tfp4) if facts.under => Some(Row::R16),
        (Cause::Tfp4Expires, P5Tfp4) => Some(Row::R17),
        (Cause::Tfp5Expires, P4) => Some(Row::R15),
        (Cause::Tfp7Expires, P1) => Some(Row::R28),
        (Cause::SetupHeard, P0 | P1) if !facts.same => Some(setup_row(facts)),
        (Cause::SetupHeard, _) if !facts.same => Some(Row::R27),
        (Cause::RingingHeard, P2Tfp1) if facts.same => Some(Row::R4),
        (Cause::AcceptHeard, P2Tfp1 | P2Tfp2) if facts.same && facts.media_verdict => Some(Row::R5),
        (Cause::AcceptHeard, P4) if facts.same && facts.own_caller => Some(Row::R29),
        (Cause::RejectHeard, P2Tfp1 | P2Tfp2) if facts.same => Some(Row::R6),
        (Cause::ReleaseHeard, P1) if facts.same => Some(Row::R14),
        (Cause::ReleaseHeard, P3 | P4 | P5Tfp2 | P5Tfp4) if facts.same => Some(Row::R13),
        (Cause::ReleaseAckHeard, P3) if facts.same => Some(Row::R12),
        (Cause::AcceptAckHeard, P5Tfp4) if facts.same => Some(Row::R18),
        _ => None,
    }
}

// The row of a setup request that counts, is not the same, and is heard in P0 or P1.
fn setup_row(facts: Facts) -> Row
    ensures { result ≡ setup_row facts }
{
    if !facts.media_verdict {
        Row::R19
    } else if facts.manual {
        Row::R22
    } else if facts.trusted {
        Row::R20
    } else {
        Row::R21
    }
}
