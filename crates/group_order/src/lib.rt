// The order of group calls: which of two is better.
#![tactic(auto)]

ghost use Rattle.std.specs.Prelude.{◌≡◌};
ghost use Rattle.group_order.specs.Order.{rank_of, is_better};

use frame::GroupCall;

// The rank of a call's type, best first: emergency 0, imminent peril 1, basic 2; what is no type of a group call ranks
// with basic.
// A number, no enum, which would be no plainer: it would need these numbers for its order, and a definition of them.
pub fn rank(call_type: u8) -> u8
    ensures { result ≡ rank_of call_type }
{
    match call_type {
        2 => 0,
        3 => 1,
        _ => 2,
    }
}

// Whether the first call is better than the second: by rank, then by the earlier start, then by the lower identifier.
pub fn better(first: GroupCall, second: GroupCall) -> bool
    ensures { result ≡ is_better first second }
{
    (rank(first.call_type), first.start, first.identifier)
        < (rank(second.call_type), second.start, second.identifier)
}
