//! A message, and what is heard of one.
ghost use Rattle.std.specs.Prelude.{◌≡◌};
ghost use Rattle.message_heads.specs.Hearing.{heard_of};

/// A whole message: the places of its parts in the bytes that it stands in, each from a place up to
/// another.
#[derive(Clone, Copy)]
pub struct Message {
    pub method: (u32, u32),
    pub target: (u32, u32),
    pub body: (u32, u32),
    /// Whether the connection ends after the answer (RFC 9112, section 9.6).
    pub close: bool,
}

/// What is heard at the front of the bytes that came.
#[derive(Drop)]
pub enum Heard {
    /// A whole message, and its length.
    Whole(Message, usize),
    /// A bad message, and the status of its answer: 431, 400, 501 or 413.
    Bad(u16),
    /// More has to come.
    More,
}

/// The same, and how long nothing else can be heard.
#[derive(Drop)]
pub enum Hearing {
    Whole(Message, usize),
    Bad(u16),
    /// More has to come: nothing is decided before the bytes are so many.
    More(usize),
}

impl Hearing {
    /// What is heard.
    pub fn heard(self) -> Heard
        ensures { result ≡ heard_of self }
    {
        match self {
            Hearing::Whole(message, length) => Heard::Whole(message, length),
            Hearing::Bad(status) => Heard::Bad(status),
            Hearing::More(_) => Heard::More,
        }
    }
}
