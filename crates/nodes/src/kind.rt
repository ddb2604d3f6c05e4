// The kinds of nodes, their numbers in the node table and their words in the listing.
ghost use Rattle.nodes.specs.Kind.{kind_word, Decodes};
ghost use Rattle.std.specs.Prelude.{◌≡◌, Some};

use std::fmt;

#[derive(Clone, Copy, PartialEq, Eq)]
pub enum NodeKind {
    Name = 1,
    Number = 2,
    Prefix = 3,
    Infix = 4,
    Postfix = 5,
    Bracket = 6,
    Block = 7,
}

// A number that no kind has.
#[derive(Clone, Copy, PartialEq, Eq)]
pub struct UnknownKind(pub u32);

impl TryFrom<u32> for NodeKind {
    type Error = UnknownKind;

    ghost try_from_gives = { Decodes };

    fn try_from(number: u32) -> Result<Self, UnknownKind> {
        match number {
            1 => Ok(NodeKind::Name),
            2 => Ok(NodeKind::Number),
            3 => Ok(NodeKind::Prefix),
            4 => Ok(NodeKind::Infix),
            5 => Ok(NodeKind::Postfix),
            6 => Ok(NodeKind::Bracket),
            7 => Ok(NodeKind::Block),
            _ => Err(UnknownKind(number)),
        }
    }
}

impl NodeKind {
    // The word of a kind in the listing.
    #[tactic(auto, unfolding(grammar::specs::Listing::kind_names))]
    pub fn word(self) -> &'static str
        ensures { result.now ≡ kind_word self }
    {
        match self {
            NodeKind::Name => "name",
            NodeKind::Number => "number",
            NodeKind::Prefix => "prefix",
            NodeKind::Infix => "infix",
            NodeKind::Postfix => "postfix",
            NodeKind::Bracket => "bracket",
            NodeKind::Block => "block",
        }
    }
}

impl fmt::Display for NodeKind {
    ghost output = { λ kind. Some (kind_word kind) };

    fn fmt<W: fmt::Write>(&self, f: &mut fmt::Formatter<W>) -> fmt::Result {
        f.write_str(self.word())
    }
}
