// The services for C and Rust programs: `c/archive` writes them into one archive.
ghost use Rattle.reader.specs.Answered.{Reads, Canonicalizes, Locates, WritesName};

use reader::Answer;

// Reads a text into a lent node table; `reader::read` under a name for C.
#[unsafe(no_mangle)]
pub extern "C" fn rule_read(text: &[u8], nodes: &mut [u32]) -> Answer
    ensures { Reads text.now nodes.old nodes.new result }
{
    reader::read(text, nodes)
}

// Writes the canonical text of a text into a lent buffer; `reader::canonicalize` under a name for C.
#[unsafe(no_mangle)]
pub extern "C" fn rule_canonicalize(text: &[u8], buffer: &mut [u8]) -> Answer
    ensures { Canonicalizes text.now buffer.old buffer.new result }
{
    reader::canonicalize(text, buffer)
}

// Where a text is refused, and lost where it has no tree; `reader::locate` under a name for C.
#[unsafe(no_mangle)]
pub extern "C" fn rule_locate(text: &[u8]) -> Answer
    ensures { Locates text.now result }
{
    reader::locate(text)
}

// Writes the characters of the name at a node of a node table into a lent buffer; `reader::write_name` under a name for C.
#[unsafe(no_mangle)]
pub extern "C" fn rule_write_name(
    text: &[u8],
    nodes: &[u32],
    node: usize,
    buffer: &mut [u8],
) -> Answer
    ensures { WritesName text.now nodes.now node buffer.old buffer.new result }
{
    reader::write_name(text, nodes, node, buffer)
}
