// How long a field is in what is left of a line: up to a comma or slash, or, of a text, up to its trailing blanks.

#![tactic(auto, unfolding(crate::specs::FieldLengths::extent_of))]

ghost use Rattle.std.specs.Prelude.{◌≡◌, ◌≤◌, length};
ghost use Rattle.rules.specs.Bytes.{trimmed};
ghost use Rattle.rules.specs.Cells.{leading_blanks};
ghost use Rattle.read_field_ends.specs.FieldLengths.{extent_of};

// How many blanks stand in front.
pub fn blanks_len(f: &[u8]) -> usize
    ensures { (result ≡ leading_blanks f.now) × (result ≤ length f.now) }
{
    f.iter().position(|&b| b != b' ').unwrap_or(f.len())
}

// How many bytes are left without the trailing blanks.
fn trimmed_len(f: &[u8]) -> usize
    ensures { result ≡ length (trimmed f.now) }
{
    f.len() - f.iter().rev().position(|&b| b != b' ').unwrap_or(f.len())
}

// How long the first field is of what is left of a line, unless the line ends before a comma or slash; a text takes all of it, less trailing blanks.
pub fn field_extent(text: bool, rest: &[u8]) -> Option<usize>
    ensures { result ≡ extent_of text rest.now }
{
    if text {
        return Some(trimmed_len(rest));
    }
    rest.iter().position(|&b| b == b',' || b == b'/')
}
