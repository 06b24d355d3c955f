// Keys of record types, whose fields are bare. A key of another type is a value at depth 0.
ghost use Rattle.std.specs.Prelude.{◌≡◌, get_or};
ghost use Rattle.read.specs.Walk.{TypeAt, BareWalk};

use crate::answers::more;
use crate::values::walk_fields;
use crate::{Refused, Walked};

// A key of a record type, with what is left over. The record's own two words count, and no value is begun for it.
pub fn walk_bare(ty: &[u32], bytes: &[u8]) -> Result<Walked, Refused>
    requires typed { TypeAt ty.now 0 }
    requires record_type { get_or ty.now 0 0 ≡ 5 }
    ensures { BareWalk ty.now bytes.now result }
{
    let n = ty[1];
    more(walk_fields(ty, 2, n, bytes, 0, 0, false), 2, 0)
}
