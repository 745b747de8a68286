// `Message`: what a failed assertion says.
ghost use Rattle.std.specs.Prelude.{◌≡◌, codes};
ghost use Rattle.std.specs.Option.{unwrap_or};

use fv_io::Text;
use std::marker::Model;

/// What a failed assertion says: the text that it was given, or else `Assert`. It takes no memory of its own.
#[derive(Drop, Debug)]
pub struct Message {
    given: Option<Text>,
}

impl Model for Message {
    ghost use Rattle.std.specs.Prelude.{List, ℕ, codes};
    ghost use Rattle.std.specs.Option.{unwrap_or};

    ghost Value = { List ℕ };

    ghost view = { λ m. unwrap_or m.given (codes "Assert") };
}

impl Message {
    /// The message of an assertion that was given this text, or none.
    pub fn new(given: Option<Text>) -> Message
        ensures { result ≡ unwrap_or given (codes "Assert") }
    {
        Message { given }
    }

    /// The message.
    pub fn as_str(&self) -> &str
        ensures { result.now ≡ self.now }
    {
        match &self.given {
            Some(text) => text.as_str(),
            None => "Assert",
        }
    }
}
