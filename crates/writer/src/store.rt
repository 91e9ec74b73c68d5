// The fields of a frame written at their places of a buffer.
ghost use Rattle.std.specs.Prelude.{◌≡◌, [], ◌∷◌, ◌+◌, ◌≤◌, length};
ghost use Rattle.std.proofs.lemmas.List.Edits.{sets};
ghost use Rattle.frame.specs.Digits.{all_in_hex, in_hex, one};
ghost use Rattle.frame.specs.Frame.{kind_of};
ghost use Rattle.frame.specs.Kind.{kind_number};
ghost use Rattle.frame.specs.Layout.{front, back, digits_of, frame_in_hex};
ghost use Rattle.frame.specs.Layout.{parties_then, group_front, group_back, acceptance_then};

use crate::carried::put_media;
use crate::put::{put_four, put_one, put_two};
use frame::{Acceptance, Frame, GroupCall, Kind, Media, Message, Parties, Setup};

// The kind, which begins a line.
fn put_kind(out: &mut [u8], kind: Kind)
    requires { 2 ≤ length out.old }
    ensures { out.new ≡ sets out.old 0 (in_hex one (kind_number kind)) }
{
    put_one(out, 0, kind as u8);
}

// The kind, and the identifier and the users of a private call.
fn put_parties(out: &mut [u8], kind: Kind, p: Parties)
    requires { 22 ≤ length out.old }
    ensures { out.new ≡ sets out.old 0 (all_in_hex (front 2) (kind_number kind ∷ parties_then p [])) }
{
    put_kind(out, kind);
    put_two(out, 2, p.identifier);
    put_four(out, 6, p.caller);
    put_four(out, 14, p.callee);
}

// A setup request.
fn put_setup(out: &mut [u8], p: Parties, s: Setup, media: Media)
    requires { 42 ≤ length out.old }
    ensures { out.new ≡ sets out.old 0 (frame_in_hex (Message.SetupRequest p s) media) }
{
    put_parties(out, Kind::SetupRequest, p);
    put_one(out, 22, s.commencement);
    put_one(out, 24, s.call_type);
    put_media(out, 26, media);
    put_four(out, 34, s.pck_id);
}

// The kind, and the fields of a group call that stand before the media.
fn put_group_front(out: &mut [u8], c: GroupCall)
    requires { 20 ≤ length out.old }
    ensures { out.new ≡ sets out.old 0 (all_in_hex (front 8) (8 ∷ group_front c)) }
{
    put_kind(out, Kind::Announcement);
    put_two(out, 2, c.identifier);
    put_four(out, 6, c.group);
    put_one(out, 14, c.call_type);
    put_two(out, 16, c.refresh);
}

// The fields of a group call that stand after the media, from place at on.
fn put_group_back(out: &mut [u8], at: usize, c: GroupCall, confirm: u8)
    requires { at + 34 ≤ length out.old }
    ensures { out.new ≡ sets out.old at (all_in_hex (back 8) (group_back c confirm)) }
{
    put_four(out, at, c.originator);
    put_four(out, at + 8, c.start);
    put_four(out, at + 16, c.last_change);
    put_four(out, at + 24, c.last_changer);
    put_one(out, at + 32, confirm);
}

// An announcement.
fn put_announcement(out: &mut [u8], c: GroupCall, confirm: u8, media: Media)
    requires { 62 ≤ length out.old }
    ensures { out.new ≡ sets out.old 0 (frame_in_hex (Message.Announcement c confirm) media) }
{
    put_group_front(out, c);
    put_media(out, 20, media);
    put_group_back(out, 28, c, confirm);
}

// A group call accept.
fn put_acceptance(out: &mut [u8], a: Acceptance)
    requires { 24 ≤ length out.old }
    ensures { out.new ≡ sets out.old 0 (all_in_hex (front 9) (9 ∷ acceptance_then a)) }
{
    put_kind(out, Kind::GroupAccept);
    put_two(out, 2, a.identifier);
    put_four(out, 6, a.sender);
    put_one(out, 14, a.call_type);
    put_four(out, 16, a.group);
}

// The digits of a frame, at the front of out.
#[tactic(auto, unfolding(frame::specs::Layout::digits_of))]
pub(crate) fn put_frame(out: &mut [u8], frame: Frame)
    requires { digits_of (kind_of frame.message) ≤ length out.old }
    ensures { out.new ≡ sets out.old 0 (frame_in_hex frame.message frame.media) }
{
    let Frame { message, media } = frame;
    match message {
        Message::SetupRequest(p, s) => put_setup(out, p, s, media),
        Message::Accept(p) => {
            put_parties(out, Kind::Accept, p);
            put_media(out, 22, media);
        }
        Message::Reject(p, reason) => {
            put_parties(out, Kind::Reject, p);
            put_one(out, 22, reason);
        }
        Message::Announcement(c, confirm) => put_announcement(out, c, confirm, media),
        Message::GroupAccept(a) => put_acceptance(out, a),
        Message::Ringing(p) => put_parties(out, Kind::Ringing, p),
        Message::Release(p) => put_parties(out, Kind::Release, p),
        Message::ReleaseAck(p) => put_parties(out, Kind::ReleaseAck, p),
        Message::AcceptAck(p) => put_parties(out, Kind::AcceptAck, p),
    }
}
