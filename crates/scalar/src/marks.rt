// The mark that a field begins with.
ghost use Rattle.std.specs.Prelude.{◌≡◌};
ghost use Rattle.format.specs.Refusals.{answered};
ghost use Rattle.scalar.specs.Answers.{begins_with};

use format::Refusal;

// Do the bytes begin with a mark?
pub fn expect_mark(bytes: &[u8], mark: u8) -> Result<(), Refusal>
    ensures { answered result ≡ begins_with mark bytes.now }
{
    if bytes.len() == 0 {
        return Err(Refusal::UnexpectedEof);
    }
    let found = bytes[0];
    if found != mark {
        return Err(Refusal::UnexpectedMark(found));
    }
    Ok(())
}
