// A node of the table, by its six words.
use nodes::kind::NodeKind;

#[derive(Clone, Copy)]
pub struct Node {
    // None where the word is the number of no kind.
    pub kind: Option<NodeKind>,
    pub first: u32,
    pub second: u32,
    pub offset: u32,
    pub length: u32,
    pub precedence: u32,
}

impl Node {
    ghost use Rattle.std.specs.Prelude.{◌≡◌, length};
    ghost use Rattle.grammar.specs.Nodes.{words_per_node};
    ghost use Rattle.listing.specs.Node.{IsNodeOf};

    // The node with these words.
    pub fn from_words(words: &[u32]) -> Node
        requires { length words.now ≡ words_per_node }
        ensures { IsNodeOf words.now result }
    {
        Node {
            kind: NodeKind::try_from(words[0]).ok(),
            first: words[1],
            second: words[2],
            offset: words[3],
            length: words[4],
            precedence: words[5],
        }
    }
}
