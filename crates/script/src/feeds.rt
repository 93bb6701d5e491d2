//! Line feeds, counted.

ghost use Rattle.std.specs.Prelude.{◌≡◌, ◌≤◌, length};
ghost use Rattle.script.specs.Items.{line_feeds};

/// How many bytes are counted together. Their count fits in a byte, so the processor can count many at a time.
const BLOCK: usize = 192;

/// How many line feeds are in the text.
pub fn line_feeds(text: &[u8]) -> usize
    ensures { result ≡ line_feeds text.now }
{
    let mut rest = text;
    let mut count = 0;
    while rest.len() > BLOCK {
        let (block, others) = rest.split_at(BLOCK);
        count += line_feeds_of_block(block) as usize;
        rest = others;
    }
    count + line_feeds_of_block(rest) as usize
}

/// How many line feeds are in these bytes, which are at most one block.
fn line_feeds_of_block(block: &[u8]) -> u8
    requires { length block.now ≤ BLOCK }
    ensures { result ≡ line_feeds block.now }
{
    let mut count = 0;
    for byte in block {
        if *byte == b'\n' {
            count += 1;
        }
    }
    count
}
