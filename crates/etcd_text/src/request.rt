//! What etcd is asked for, and its text.

ghost use Rattle.std.specs.Prelude.{◌≡◌};
ghost use Rattle.etcd_text.specs.Asked.{asked_by};
ghost use Rattle.etcd_text.specs.Texts.{is_range, path_of};

use crate::tail::Tail;

/// What etcd is asked for. Each request but the last two names the tail that its sender knows, and is to do nothing
/// where the tail is another one.
#[derive(Clone, Copy)]
pub enum Request<'a> {
    /// The log is to be this owner's, with all its pieces; or it is to begin, where there is no tail.
    Take {
        seen: Option<Tail<'a>>,
        owner: &'a [u8],
    },
    /// The next piece of the generation in use is to have these bytes.
    Put {
        tail: Tail<'a>,
        bytes: &'a [u8],
    },
    /// A piece of another generation is to have these bytes.
    Fresh {
        tail: Tail<'a>,
        generation: u64,
        number: u64,
        bytes: &'a [u8],
    },
    /// A generation with so many pieces is to be in use.
    Place {
        tail: Tail<'a>,
        generation: u64,
        count: u64,
    },
    /// All generations below the one in use are to go.
    DropOlder {
        tail: Tail<'a>,
    },
    /// Which is the tail?
    Ask,
    /// Which is this piece?
    Read {
        generation: u64,
        number: u64,
    },
}

impl Request<'_> {
    /// Whether it is a question, whose text asks for a range. Others are transactions.
    pub fn is_range(&self) -> bool
        ensures { result ≡ is_range (asked_by self.now) }
    {
        matches!(self, Request::Ask | Request::Read { .. })
    }

    /// The path that it is sent to.
    pub fn path(&self) -> &'static str
        ensures { result.now ≡ path_of (asked_by self.now) }
    {
        if self.is_range() {
            "/v3/kv/range"
        } else {
            "/v3/kv/txn"
        }
    }
}
