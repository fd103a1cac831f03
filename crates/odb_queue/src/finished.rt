//! What is queued for a session, as printed text. [P 10.1]

ghost use Rattle.std.specs.Prelude.{◌≡◌};
ghost use Rattle.serde_json.specs.Written.{compact_text};
ghost use Rattle.odb_service.specs.Session.{is_answer};

use crate::meaning::MessageMeaning;

/// A finished text, whether it is a reply, and what it means.
#[derive(Drop)]
pub struct Finished {
    pub text: Vec<u8>,
    pub is_reply: bool,
    pub meaning: MessageMeaning,
    ghost printed: { text.items ≡ compact_text meaning.message },
    ghost counted: { is_reply ≡ is_answer meaning.answers },
}
