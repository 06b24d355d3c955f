// Type sheets: where a type ends, and whether a sheet is admitted. A kind stays a number, for the lent words are C's.
ghost use Rattle.std.specs.Prelude.{◌≡◌, true, ◌+◌, ◌≤◌, ◌<◌, length, drop, get_or};
ghost use Rattle.format.specs.TypeSheet.{type_at, types, alts, type_of, is_some};
ghost use Rattle.sheet.specs.Places.{Ends, SkipsType, SkipsTypes};

// The place behind the type at `at`, of at most `groups` groups in one another, if there is one. Only a group is a call.
#[cycle(type_ends)]
pub fn type_end(ty: &[u32], at: usize, groups: usize) -> Option<usize>
    ensures { Ends ty.now (at + 1) (type_at groups (drop at ty.now)) result }
{
    if at >= ty.len() {
        return None;
    }
    let kind = ty[at];
    if kind == 0 {
        return None;
    }
    if kind < format::KIND_FACT {
        return Some(at + 1);
    }
    if ty.len() - at < 2 {
        return None;
    }
    if kind == format::KIND_FACT {
        return Some(at + 2);
    }
    // a name of its own, so that only here the slice has to stand in memory
    let words = ty;
    group_end(words, at, groups)
}

// The place behind the group at `at`, or behind word 7 and the type that it makes optional, which is not optional itself; an unknown kind is none. It
// calls itself behind word 7, so that the compiler keeps it out of the loops over types.
#[cycle(type_ends)]
fn group_end(ty: &[u32], at: usize, groups: usize) -> Option<usize>
    requires { (at + 1 < length ty.now) × (4 < get_or ty.now at 0) }
    ensures { Ends ty.now (at + 1) (type_at groups (drop at ty.now)) result }
{
    let kind = ty[at];
    let second = ty[at + 1];
    if kind == format::KIND_OPTIONAL {
        if second == 0 {
            return None;
        }
        if second == format::KIND_OPTIONAL {
            return None;
        }
        if second < format::KIND_FACT {
            return Some(at + 2);
        }
        if ty.len() - at < 3 {
            return None;
        }
        if second == format::KIND_FACT {
            return Some(at + 3);
        }
        let words = ty;
        return group_end(words, at + 1, groups);
    }
    if groups == 0 {
        return None;
    }
    if kind == format::KIND_RECORD {
        return fields_end(ty, at + 2, second, groups - 1);
    }
    if kind == format::KIND_UNION {
        return alternatives_end(ty, at + 2, second, groups - 1);
    }
    None
}

// The place behind `count` types from `at` on, if they stand there.
#[cycle(type_ends)]
fn fields_end(ty: &[u32], at: usize, count: u32, groups: usize) -> Option<usize>
    requires { at ≤ length ty.now }
    ensures { Ends ty.now at (types (type_at groups) count (drop at ty.now)) result }
{
    let mut place = at;
    for _ in 0..count {
        place = type_end(ty, place, groups)?;
    }
    Some(place)
}

// The place behind `count` alternatives from `at` on, if they stand there.
#[cycle(type_ends)]
pub fn alternatives_end(ty: &[u32], at: usize, count: u32, groups: usize) -> Option<usize>
    requires { at ≤ length ty.now }
    ensures { Ends ty.now at (alts (type_at groups) count (drop at ty.now)) result }
{
    let mut place = at;
    for _ in 0..count {
        if place >= ty.len() {
            return None;
        }
        place = type_end(ty, place + 1, groups)?;
    }
    Some(place)
}

// Is the sheet admitted: used up exactly, of known kinds, of at most 4,096 words and at most 320 groups in one another?
pub fn admit_type(ty: &[u32]) -> bool
    ensures { result ≡ is_some (type_of ty.now) }
{
    if ty.len() > format::MAX_TYPE_WORDS {
        return false;
    }
    type_end(ty, 0, format::MAX_SHEET_GROUPS) == Some(ty.len())
}

// The place behind the type at `at`, of an admitted sheet, where it is asked for: it is not passed in vain. There it is never none, so a number and no Option.
pub fn skip_type(ty: &[u32], at: usize, asked: bool) -> usize
    ensures { asked ≡ true → SkipsType ty.now at result }
{
    if asked {
        return type_end(ty, at, format::MAX_SHEET_GROUPS).unwrap_or(0);
    }
    at
}

// The place behind `count` types from `at` on, of an admitted sheet, where it is never none.
pub fn skip_fields(ty: &[u32], at: usize, count: u32) -> usize
    ensures { SkipsTypes ty.now at count result }
{
    if at > ty.len() {
        return 0;
    }
    fields_end(ty, at, count, format::MAX_SHEET_GROUPS).unwrap_or(0)
}

// Is the place behind the first of some types in a row asked for? Where a type follows, or where the place behind the last one is.
pub fn asks(left: u32, asked: bool) -> bool
    ensures { (1 < left → result ≡ true) × (asked ≡ true → result ≡ true) }
{
    1 < left || asked
}
