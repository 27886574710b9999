use mine_model::Item;

/// The two kinds of brackets.
#[derive(Clone, Copy, PartialEq, Eq)]
pub(crate) enum Bracket {
    Round,
    Square,
}

/// What a token is to the grammar.
#[derive(Clone, Copy)]
pub(crate) enum Mark {
    /// A name, by its number: how many names stand before it.
    Name(Item),
    Caret,
    Equals,
    Dot,
    Bang,
    Bar,
    Opening(Bracket),
    Closing(Bracket),
    /// A postfix sign, with the bounds of its repetition.
    Postfix { least: u32, most: Option<u32> },
}

/// What a token is: a mark, or a repeat that is refused.
#[derive(Clone, Copy)]
pub(crate) enum Kind {
    Mark(Mark),
    /// A repeat of no right form, or with its bounds the wrong way round.
    BadRepeat,
    /// A repeat with a number that is too great.
    BeyondLimit,
}

/// A token where it stands.
#[derive(Clone, Copy)]
pub(crate) struct ReadToken {
    pub(crate) column: u32,
    pub(crate) kind: Kind,
}
