// How a shift ends: the records of both cabs, and in words whether the cabs are in the same call.
use crate::cabs::{Cab, CabName, Shift};
use crate::machines::Machine;
use frame::{GroupCall, Media};
use private_record::states::PrivateCall;
use std::io;

// A call that a cab is in.
trait Call: Copy + PartialEq {
    // Its identifier.
    fn identifier(&self) -> u16;
}

// A private call.
impl Call for PrivateCall {
    fn identifier(&self) -> u16 {
        self.parties.identifier
    }
}

// A group call with its media.
impl Call for (GroupCall, Media) {
    fn identifier(&self) -> u16 {
        self.0.identifier
    }
}

impl Cab {
    // The private call that it is in: it is in one in P4.
    fn private_call(&self) -> Option<PrivateCall> {
        let is_in = matches!(self.private.state, private_record::states::State::P4);
        is_in.then_some(self.private.call)
    }

    // The group call that it is in: it is in one in S3.
    fn group_call(&self) -> Option<(GroupCall, Media)> {
        let is_in = matches!(self.group.state, group_record::states::State::S3);
        is_in.then_some((self.group.call, self.group.media))
    }
}

// How the calls of cab a and of cab b stand to each other, in words.
fn standing<C: Call>(of_a: Option<C>, of_b: Option<C>) -> &'static str {
    match (of_a, of_b) {
        (None, None) => "neither cab is in a call.",
        (Some(_), None) => "cab a is in a call, cab b is in none.",
        (None, Some(_)) => "cab b is in a call, cab a is in none.",
        (Some(one), Some(other)) => {
            if one == other {
                "both cabs are in the same call."
            } else if one.identifier() == other.identifier() {
                "the cabs are in calls with the same identifier that differ in other fields."
            } else {
                "the cabs are in different calls."
            }
        }
    }
}

impl Shift {
    // Tells how the shift ends: each line, also where one ahead of it could not be written.
    pub(crate) fn tell_outcome(&self, rt: &impl Print) -> io::Result<()> {
        let of_a = self.tell_cab(rt, CabName::A);
        let of_b = self.tell_cab(rt, CabName::B);
        let private = standing(self.a.private_call(), self.b.private_call());
        let of_private = println!(rt; "Private call: {private}");
        let group = standing(self.a.group_call(), self.b.group_call());
        let of_group = println!(rt; "Group call: {group}");
        of_a.and(of_b).and(of_private).and(of_group)
    }

    // Tells the records of a cab.
    fn tell_cab(&self, rt: &impl Print, name: CabName) -> io::Result<()> {
        let private = self.tell_record(rt, name, Machine::Private);
        self.tell_record(rt, name, Machine::Group).and(private)
    }

    // Tells the record that a cab keeps for a machine.
    fn tell_record(&self, rt: &impl Print, name: CabName, machine: Machine) -> io::Result<()> {
        let record = self.cab(name).record(machine);
        let state = record.state();
        println!(rt; "end {name} {machine} {state} {record}")
    }
}
