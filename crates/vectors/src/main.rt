// The program that plays the run-and-compare cases through the machines and writes each line that they send.
#![tactic(auto)]

use call::{
    Action, Counters, Event, GroupAction, GroupStart, Input, PrivateAction, PrivateStart, Settings,
    Verdicts,
};
use frame::{Media, Message};
use group_record::states::GroupRecord;
use private_record::states::PrivateRecord;

// What user 9 sends to accept the call, with media 6.
const ACCEPT: [u8; 31] = *b"031234000000070000000900000006\n";

// User 7 of group 3, who sends each message three times at most.
const CREW: Settings = Settings {
    own_user: 7,
    own_group: 3,
    restrict: false,
    acknowledgement: false,
    limits: Counters {
        cfp1: 3,
        cfp3: 3,
        cfp4: 3,
    },
};

// User 7 starts the private call 1234 to user 9, automatic, without security.
const PRIVATE_START: PrivateStart = PrivateStart {
    identifier: 0x1234,
    callee: 9,
    commencement: 0,
    pck_id: 0,
};

// User 7 starts the group call 16: emergency, refresh 30, at the time 1000, and asks the others to confirm.
const GROUP_START: GroupStart = GroupStart {
    identifier: 16,
    call_type: 2,
    refresh: 30,
    confirm: 1,
    now: 1000,
};

// The media of both calls.
const MEDIA: Media = Media { number: 5 };

// An event with this media beside it, where the media can be set up and the signature is good.
fn input(event: Event, media: Media) -> Input {
    Input {
        event,
        media,
        verdicts: Verdicts {
            media: true,
            signature: true,
        },
    }
}

// Writes the line at the front of the buffer, and ahead of it a complaint where the step told another length. Where
// standard error fails there is nobody to tell.
fn show(rt: &HostRuntime, out: &[u8], told: usize) {
    let length = log_lines::first_line_length(out);
    if length != told {
        let _ = println!(rt; "vectors: a step told another length than that of its line");
    }
    if rt.write_all(&out[..length]).is_err() {
        let _ = eprintln!(rt; "vectors: a line could not be written");
    }
}

// One step of the private call machine: shows the line that it sends, and gives the next record.
fn private_step(rt: &HostRuntime, stored: PrivateRecord, taken: Input) -> PrivateRecord {
    let mut out = [0u8; Message::LONGEST];
    let answer = private_call::step(CREW, stored, taken, &mut out);
    let done = private_call::done(stored, answer);
    show(rt, &out, done.length);
    done.next
}

// The private call: user 7 starts it, hears the accept of user 9, and ends it.
fn play_private_call(rt: &HostRuntime) {
    let start = Event::Action(Action::Private(PrivateAction::Start(PRIVATE_START)));
    let called = private_step(rt, PrivateRecord::cleared(), input(start, MEDIA));
    let Ok(heard) = reader::read_line(&ACCEPT) else {
        let _ = eprintln!(rt; "vectors: the accept was not read");
        return;
    };
    let accept = Event::Message(heard.message);
    let accepted = private_step(rt, called, input(accept, heard.media));
    let end = Event::Action(Action::Private(PrivateAction::End));
    private_step(rt, accepted, input(end, Media::NONE));
}

// The group call: user 7 announces it.
fn play_group_call(rt: &HostRuntime) {
    let start = Event::Action(Action::Group(GroupAction::Start(GROUP_START)));
    let mut out = [0u8; Message::LONGEST];
    let stored = GroupRecord::cleared();
    let answer = group_call::step(CREW, stored, input(start, MEDIA), &mut out);
    let done = group_call::done(stored, answer);
    show(rt, &out, done.length);
}

// The private call, then the group call.
fn main(rt: HostRuntime) {
    play_private_call(&rt);
    play_group_call(&rt);
}
