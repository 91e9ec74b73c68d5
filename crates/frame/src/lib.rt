// Messages of the cab terminal: the nine kinds, the media beside them, and the range of every field.
#![tactic(auto)]

mod carried;
mod kind;
pub mod range;
mod refusal;

pub use crate::kind::Kind;
pub use crate::refusal::Refusal;

// What stands beside a message whose kind carries media: today a number.
#[derive(Clone, Copy, PartialEq, Eq)]
pub struct Media {
    pub number: u32,
}

impl Media {
    // What a kind without media has in its place.
    // No Option around it: `in_range` and the writer answer for any media beside a kind that carries none.
    pub const NONE: Media = Media { number: 0 };
}

// A private call: its identifier and its two users.
#[derive(Clone, Copy, PartialEq, Eq)]
pub struct Parties {
    pub identifier: u16,
    pub caller: u32,
    pub callee: u32,
}

impl Parties {
    // Where there is no call.
    // No Option around it: a record that holds no call has these fields, and `well_formed` answers for any others.
    pub const NONE: Parties = Parties {
        identifier: 0,
        caller: 0,
        callee: 0,
    };
}

// What a setup request says of the call besides.
// Numbers in place of enums: one out of its range is a field that `in_range` and the writer refuse, with 5.
#[derive(Clone, Copy, PartialEq, Eq)]
pub struct Setup {
    pub commencement: u8,
    pub call_type: u8,
    pub pck_id: u32,
}

impl Setup {
    // The type of a private call.
    pub const PRIVATE: u8 = 4;
}

// A group call, all but its media; its type is a number for the reason that stands at Setup.
#[derive(Clone, Copy, PartialEq, Eq)]
pub struct GroupCall {
    pub identifier: u16,
    pub group: u32,
    pub call_type: u8,
    pub refresh: u16,
    pub originator: u32,
    pub start: u32,
    pub last_change: u32,
    pub last_changer: u32,
}

impl GroupCall {
    // Where there is no call.
    // No Option around it: a record that holds no call has these fields, and `well_formed` answers for any others.
    pub const NONE: GroupCall = GroupCall {
        identifier: 0,
        group: 0,
        call_type: 0,
        refresh: 0,
        originator: 0,
        start: 0,
        last_change: 0,
        last_changer: 0,
    };
}

// A user's acceptance of a group call; its type is a number for the reason that stands at Setup.
#[derive(Clone, Copy, PartialEq, Eq)]
pub struct Acceptance {
    pub identifier: u16,
    pub sender: u32,
    pub call_type: u8,
    pub group: u32,
}

// The nine kinds of message, 01 to 09; a reject has its reason, an announcement its confirm beside it, both numbers for
// the reason that stands at Setup.
#[derive(Clone, Copy, PartialEq, Eq)]
pub enum Message {
    SetupRequest(Parties, Setup),
    Ringing(Parties),
    Accept(Parties),
    Reject(Parties, u8),
    Release(Parties),
    ReleaseAck(Parties),
    AcceptAck(Parties),
    Announcement(GroupCall, u8),
    GroupAccept(Acceptance),
}

impl Message {
    // The length of the longest line: a buffer of so many bytes has room for every message.
    pub const LONGEST: usize = 63;
}

// A frame: a message, and the media beside it.
#[derive(Clone, Copy, PartialEq, Eq)]
pub struct Frame {
    pub message: Message,
    pub media: Media,
}
