// Text: lines end with a line feed, words are parted by tabs.
ghost use Rattle.std.specs.Prelude.{◌≡◌, ◌==◌, ◌≤◌, length};
ghost use Rattle.std.specs.List.{position};
ghost use Rattle.keylines.specs.Answers.{FoundAt};

// The place of the first such byte.
fn first(text: &[u8], byte: u8) -> Option<usize>
    ensures { result ≡ position (λ b. b == byte) text.now }
{
    text.iter().position(|b| *b == byte)
}

// The same from a place on.
pub fn find(text: &[u8], at: usize, byte: u8) -> Option<usize>
    requires { at ≤ length text.now }
    ensures { FoundAt text.now at byte result }
{
    let behind = first(&text[at..], byte)?;
    Some(at + behind)
}
