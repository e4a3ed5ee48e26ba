//! Replies as they are kept: a long one may go, and then stands for contracts alone.

ghost use Rattle.std.specs.Prelude.{◌≡◌, true, IfNone, IfSome};
ghost use Rattle.session_script.specs.KeptReplies.{bytes_in, is_long};
ghost use Rattle.session_script.specs.HeldReplies.{value_of};

use crate::logs::Reply;
use plain_tree::Answer;
use std::marker::Model;
use std::snapshot::Snapshot;

/// A long reply that is gone. Contracts see it; of its bytes the count is left.
#[derive(Drop)]
pub struct GoneReply {
    reply: Snapshot<Reply>,
    bytes: usize,
}

impl Model for GoneReply {
    ghost use Rattle.session_script.specs.declared.logs.Reply.{Reply};
    ghost use Rattle.session_script.specs.KeptReplies.{IsLeftOf};

    ghost Value = { Reply };

    ghost view = { λ g. g.reply.value };

    ghost invariant = { λ g. IsLeftOf g.reply.value g.bytes };
}

impl GoneReply {
    /// It was long.
    pub fn was_long(&self)
        ensures { is_long self.now ≡ true }
    {
        let _bytes = self.bytes;
    }

    /// How many bytes it told.
    fn bytes(&self) -> usize
        ensures { result ≡ bytes_in self.now }
    {
        self.bytes
    }
}

/// A reply that is here, or one that is gone.
#[derive(Drop)]
pub enum HeldReply {
    Here(Reply),
    Gone(GoneReply),
}

impl HeldReply {
    /// The same reply. A long one goes.
    pub fn let_go(self) -> HeldReply
        ensures { value_of result ≡ value_of self }
    {
        match self {
            HeldReply::Here(reply) => without_bytes(reply),
            HeldReply::Gone(gone) => HeldReply::Gone(gone),
        }
    }
}

/// A reply, which goes where it is long.
fn without_bytes(reply: Reply) -> HeldReply
    ensures { value_of result ≡ reply }
{
    match &reply {
        Reply::Answer(Answer::Got(bytes)) => {
            let bytes = bytes.len();
            HeldReply::Gone(GoneReply {
                reply: Snapshot::of(&reply),
                bytes,
            })
        }
        Reply::Answer(Answer::Names(_)) => HeldReply::Gone(GoneReply {
            reply: Snapshot::of(&reply),
            bytes: 0,
        }),
        _ => HeldReply::Here(reply),
    }
}

/// A reply of a log. Contracts see it, be it here or gone.
#[derive(Drop)]
pub struct KeptReply {
    held: HeldReply,
}

impl Model for KeptReply {
    ghost use Rattle.session_script.specs.declared.logs.Reply.{Reply};

    ghost Value = { Reply };

    ghost use Rattle.session_script.specs.HeldReplies.{value_of};

    ghost view = { λ k. value_of k.held };
}

impl KeptReply {
    pub fn new(held: HeldReply) -> KeptReply
        ensures { result ≡ value_of held }
    {
        KeptReply { held }
    }

    /// A reply that is here.
    pub fn here(reply: Reply) -> KeptReply
        ensures { result ≡ reply }
    {
        KeptReply {
            held: HeldReply::Here(reply),
        }
    }

    /// The reply, unless it is gone. A long one alone may be.
    pub fn get(&self) -> Option<&Reply>
        ensures some { IfSome result (λ reply. reply.now ≡ self.now) }
        ensures none { IfNone result (is_long self.now ≡ true) }
    {
        match &self.held {
            HeldReply::Here(reply) => Some(reply),
            HeldReply::Gone(gone) => {
                gone.was_long();
                None
            }
        }
    }

    /// How many bytes it tells, also where it is gone.
    pub fn bytes(&self) -> usize
        ensures { result ≡ bytes_in self.now }
    {
        match &self.held {
            HeldReply::Here(Reply::Answer(Answer::Got(bytes))) => bytes.len(),
            HeldReply::Here(_) => 0,
            HeldReply::Gone(gone) => gone.bytes(),
        }
    }
}
