ghost use Rattle.std.specs.Prelude.{◌≡◌};
ghost use Rattle.gaz_exchange.specs.Replies.{is_received, memory_fault, reply_of, reply_text};
ghost use Rattle.gaz_exchange.specs.Replies.{reply_told};

use crate::fault::Fault;
use gaz_steps::{Answer, Digest, Outcome, Refusal, Told};

/// What a reply says.
#[derive(Drop)]
pub enum Reply {
    /// What became of a file that was received now.
    New(Outcome),
    /// What became of a file that was received before.
    Repeat(Outcome),
    /// Another file was received before.
    Taken(Digest),
    /// What is told of a question.
    Told(Told),
    Refused(Fault),
}

impl From<Answer> for Reply {
    ghost from_gives = { λ answer reply. reply ≡ reply_of answer };

    fn from(answer: Answer) -> Reply {
        match answer {
            Answer::New(outcome) => Reply::New(outcome),
            Answer::Repeat(outcome) => Reply::Repeat(outcome),
            Answer::Taken { digest } => Reply::Taken(digest),
            Answer::Refused(refusal) => Reply::Refused(refusal.into()),
        }
    }
}

impl Reply {
    /// What a reply says of what is told of a question.
    pub fn told(told: Result<Option<Told>, Refusal>) -> Reply
        ensures { result ≡ reply_told told }
    {
        match told {
            Ok(Some(told)) => Reply::Told(told),
            Ok(None) => Reply::Refused(Fault::NotThere),
            Err(refusal) => Reply::Refused(refusal.into()),
        }
    }

    /// Whether it tells that the file of the request was received.
    pub fn tells_received(&self) -> bool
        ensures { result ≡ is_received self.now }
    {
        match self {
            Reply::New(_) => true,
            Reply::Refused(fault) => *fault == Fault::Unsettled,
            _ => false,
        }
    }
}

/// The reply where another finds no memory: 52 where the file of the request was received, else 51.
pub fn memory_text(received: bool, is_last: bool) -> &'static str
    ensures { result.now ≡ reply_text (Reply.Refused (memory_fault received)) is_last }
{
    let fault = if received {
        Fault::Unsettled
    } else {
        Fault::NotReceived
    };
    fault.text(is_last)
}
