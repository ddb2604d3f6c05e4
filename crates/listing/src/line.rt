// A line that is put together in an array, so that it goes to a writer by one `write_all`.
ghost use Rattle.std.specs.Prelude.{◌≡◌, [], ◌∷◌, ◌++◌, ◌+◌, ◌≤◌, List, ℕ, length, take};
ghost use Rattle.grammar.specs.Listing.{field};
ghost use Rattle.listing.specs.Lines.{spelled};
ghost use Rattle.listing.specs.Node.{word_of, node_text};

use crate::node::Node;
use nodes::kind::NodeKind;
use std::marker::Model;

// How many bytes a line can have: more than any line of a listing has.
pub const ROOM: usize = 160;

// The bytes of a line so far: the first `count` of the array.
#[derive(Drop)]
pub struct Line {
    bytes: [u8; ROOM],
    count: usize,
}

impl Model for Line {
    ghost use Rattle.std.specs.Prelude.{◌≤◌, List, ℕ, take};

    ghost Value = { List ℕ };

    ghost view = { λ l. take l.count l.bytes };

    ghost invariant = { λ l. l.count ≤ 160 };
}

impl Line {
    pub fn empty() -> Line
        ensures { result ≡ [] }
    {
        Line {
            bytes: [0; ROOM],
            count: 0,
        }
    }

    pub fn as_slice(&self) -> &[u8]
        ensures { result.now ≡ self.now }
    {
        &self.bytes[..self.count]
    }

    // How many bytes more have room.
    pub fn room(&self) -> usize
        ensures { result + length self.now ≡ ROOM }
    {
        ROOM - self.count
    }

    pub fn clear(&mut self)
        ensures { self.new ≡ [] }
    {
        self.count = 0;
    }

    // Adds bytes behind those of the line.
    pub fn add(&mut self, part: &[u8])
        requires { length self.old + length part.now ≤ ROOM }
        ensures { self.new ≡ self.old ++ part.now }
    {
        let end = self.count + part.len();
        self.bytes[self.count..end].copy_from_slice(part);
        self.count = end;
    }

    // Adds a number, of at most 20 digits.
    fn add_number(&mut self, n: u64)
        requires { length self.old + 20 ≤ ROOM }
        ensures added { self.new ≡ self.old ++ spelled n }
        ensures upper_bound { length self.new ≤ length self.old + 20 }
    {
        let mut digits = [0u8; 20];
        let k = io::decimal(n, &mut digits);
        self.add(&digits[..k]);
    }

    // Adds a number with a space before it.
    fn add_field(&mut self, n: u32)
        requires { length self.old + 21 ≤ ROOM }
        ensures added { self.new ≡ self.old ++ field n }
        ensures upper_bound { length self.new ≤ length self.old + 21 }
    {
        self.add(b" ");
        self.add_number(u64::from(n));
    }

    // Adds the word of a kind, if there is one, with a space before it.
    fn add_kind(&mut self, kind: Option<NodeKind>)
        requires { length self.old + 8 ≤ ROOM }
        ensures added { self.new ≡ self.old ++ 32 ∷ word_of kind }
        ensures upper_bound { length self.new ≤ length self.old + 8 }
    {
        self.add(b" ");
        if let Some(kind) = kind {
            self.add(kind.word().as_bytes());
        }
    }

    // Adds the line of node number `i`, with its line end.
    #[tactic(auto, using(crate::proofs::NodeText::grown))]
    pub fn add_node(&mut self, i: usize, node: Node)
        requires { length self.old + 134 ≤ ROOM }
        ensures added { self.new ≡ self.old ++ node_text i node }
        ensures upper_bound { length self.new ≤ length self.old + 134 }
    {
        self.add_number(i as u64);
        self.add_kind(node.kind);
        self.add_field(node.first);
        self.add_field(node.second);
        self.add_field(node.offset);
        self.add_field(node.length);
        self.add_field(node.precedence);
        self.add(b"\n");
    }
}
