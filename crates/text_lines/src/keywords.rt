//! The words of the grammar.

ghost use Rattle.text_lines.specs.Keywords.{keyword_text};
ghost use Rattle.std.specs.Prelude.{◌≡◌};

/// A word that the grammar has, apart from commands and policies.
#[derive(Clone, Copy, Debug, PartialEq, Eq)]
pub enum Keyword {
    Script,
    Lanes,
    Region,
    Length,
    Block,
    Sizes,
    Decode,
    Handle,
    Sanitize,
    Shareable,
    Host,
    Bases,
    MessageTag,
    Log,
    All,
    Handles,
    First,
    Count,
    More,
    Tag,
    Policy,
    Forced,
    Flags,
}

impl Keyword {
    /// The word as it is written.
    pub fn text(self) -> &'static [u8]
        ensures { result.now ≡ keyword_text self }
    {
        match self {
            Keyword::Script => b"script".as_slice(),
            Keyword::Lanes => b"lanes".as_slice(),
            Keyword::Region => b"region".as_slice(),
            Keyword::Length => b"length".as_slice(),
            Keyword::Block => b"block".as_slice(),
            Keyword::Sizes => b"sizes".as_slice(),
            Keyword::Decode => b"decode".as_slice(),
            Keyword::Handle => b"handle".as_slice(),
            Keyword::Sanitize => b"sanitize".as_slice(),
            Keyword::Shareable => b"shareable".as_slice(),
            Keyword::Host => b"host".as_slice(),
            Keyword::Bases => b"bases".as_slice(),
            Keyword::MessageTag => b"mtag".as_slice(),
            Keyword::Log => b"log".as_slice(),
            Keyword::All => b"all".as_slice(),
            Keyword::Handles => b"handles".as_slice(),
            Keyword::First => b"first".as_slice(),
            Keyword::Count => b"count".as_slice(),
            Keyword::More => b"more".as_slice(),
            Keyword::Tag => b"tag".as_slice(),
            Keyword::Policy => b"policy".as_slice(),
            Keyword::Forced => b"forced".as_slice(),
            Keyword::Flags => b"flags".as_slice(),
        }
    }
}
