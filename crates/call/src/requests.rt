// The setup request that an event brings.
ghost use Rattle.std.specs.Prelude.{◌≡◌};
ghost use Rattle.call.specs.Request.{start_request, private_action_request, action_request, message_request};

use crate::{Action, PrivateAction, PrivateStart, Request, Settings};
use frame::{Message, Parties};

// The setup request that the user's start makes.
fn start_request(settings: Settings, start: PrivateStart) -> Request
    ensures { result ≡ start_request settings start }
{
    Request::private(
        Parties {
            identifier: start.identifier,
            caller: settings.own_user,
            callee: start.callee,
        },
        start.commencement,
        start.pck_id,
    )
}

// The setup request that a private action brings.
fn private_action_request(settings: Settings, action: PrivateAction) -> Request
    ensures { result ≡ private_action_request settings action }
{
    match action {
        PrivateAction::Start(start) => start_request(settings, start),
        _ => Request::NONE,
    }
}

// The setup request that a user action brings.
pub(crate) fn action_request(settings: Settings, action: Action) -> Request
    ensures { result ≡ action_request settings action }
{
    match action {
        Action::Private(a) => private_action_request(settings, a),
        Action::Group(_) => Request::NONE,
    }
}

// The setup request that a message is, if it is one.
pub(crate) fn message_request(message: Message) -> Request
    ensures { result ≡ message_request message }
{
    match message {
        Message::SetupRequest(parties, setup) => Request { parties, setup },
        _ => Request::NONE,
    }
}
