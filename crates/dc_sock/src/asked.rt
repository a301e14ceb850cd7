//! What a client has asked for on its connection.
ghost use Rattle.std.specs.Prelude.{◌≡◌};
ghost use Rattle.dc_sock.specs.Asked.{left_of, frame_after, is_whole, none_asked, asked_after, asked_all, one_answered};

/// How far the next request of a stream has come: two bytes of length, high byte first, and so many more.
#[derive(Clone, Copy, PartialEq, Eq, Debug)]
pub(crate) enum Frame {
    /// Nothing of it came.
    Start,
    /// The first byte of its length came.
    High(u8),
    /// Its length came, and so many bytes are left, at least one.
    Body(u16),
}

/// The state of a client's stream, and how many whole requests on it aren't answered yet.
#[derive(Clone, Copy, Debug)]
pub(crate) struct Asked {
    pub(crate) frame: Frame,
    pub(crate) owed: u64,
}

impl Frame {
    /// A request of which so many bytes are left.
    fn left(left: u16) -> Frame
        ensures { result ≡ left_of left }
    {
        if left == 0 {
            Frame::Start
        } else {
            Frame::Body(left)
        }
    }

    /// How far the next request has come with one more byte.
    fn after(self, byte: u8) -> Frame
        ensures { result ≡ frame_after self byte }
    {
        match self {
            Frame::Start => Frame::High(byte),
            Frame::High(high) => Frame::left(u16::from(high) * 256 + u16::from(byte)),
            Frame::Body(left) => Frame::left(left.saturating_sub(1)),
        }
    }

    /// Whether the request before is whole.
    fn is_whole(self) -> bool
        ensures { result ≡ is_whole self }
    {
        match self {
            Frame::Start => true,
            Frame::High(_) | Frame::Body(_) => false,
        }
    }
}

impl Asked {
    /// Nothing was asked.
    pub(crate) fn none() -> Asked
        ensures { result ≡ none_asked }
    {
        Asked {
            frame: Frame::Start,
            owed: 0,
        }
    }

    /// One more byte came.
    fn take(self, byte: u8) -> Asked
        ensures { result ≡ asked_after self byte }
    {
        let frame = self.frame.after(byte);
        if frame.is_whole() {
            let owed = self.owed.saturating_add(1);
            return Asked { frame, owed };
        }
        Asked {
            frame,
            owed: self.owed,
        }
    }

    /// More bytes came.
    pub(crate) fn hear(self, bytes: &[u8]) -> Asked
        ensures { result ≡ asked_all self bytes.now }
    {
        let mut asked = self;
        for byte in bytes {
            asked = asked.take(*byte);
        }
        asked
    }

    /// One request was answered.
    pub(crate) fn answer(self) -> Asked
        ensures { result ≡ one_answered self }
    {
        Asked {
            frame: self.frame,
            owed: self.owed.saturating_sub(1),
        }
    }
}
